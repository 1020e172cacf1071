// Lines out of a part of the input.
ghost use Rattle.std.specs.Prelude.{◌≡◌, drop};
ghost use Rattle.lines.specs.Getting.{got_of, ended, cut_off};
ghost use Rattle.lines.specs.Quick.{row_got};

use crate::bytewise::{begin, event_of, read_byte};
use crate::{Got, Reading, Row};

// The byte that ends a line.
pub(crate) const LINE_FEED: u8 = 10;

// A line has ended in front of a place.
#[tactic(auto, unfolding(crate::specs::Getting::ended))]
fn end(r: Reading, at: usize) -> Got
    ensures { result ≡ ended r at }
{
    Got {
        line: Some(event_of(r)),
        reading: begin(),
        at,
    }
}

// The part has ended in front of a place.
#[tactic(auto, unfolding(crate::specs::Getting::cut_off))]
fn cut_off(r: Reading, at: usize) -> Got
    ensures { result ≡ cut_off r at }
{
    Got {
        line: None,
        reading: r,
        at,
    }
}

// The rest of a line, from a place of a part on: up to its line feed, or to the part's end.
#[tactic(auto, using(crate::proofs::Parts::got_feed, crate::proofs::Parts::got_byte, crate::proofs::Parts::got_cut))]
pub fn get_line(r: Reading, s: &[u8], at: usize) -> Got
    ensures { result ≡ got_of r (drop at s.now) at }
{
    let mut x = r;
    for i in at..s.len() {
        let b = s[i];
        if b == LINE_FEED {
            return end(x, i + 1);
        }
        x = read_byte(x, b);
    }
    cut_off(x, at.max(s.len()))
}

// What the line of a byte that was read at once gives.
#[tactic(auto, unfolding(crate::specs::Quick::row_got))]
pub fn got_row(q: Row) -> Got
    ensures { result ≡ row_got q }
{
    Got {
        line: Some(q.event),
        reading: begin(),
        at: q.to,
    }
}
