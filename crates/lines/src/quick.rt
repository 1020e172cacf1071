// A byte's line, which most lines are, read at once where all of it lies in one part. It gives what
// the bytes give one by one: `proofs/Ways.antt`.
ghost use Rattle.std.specs.Prelude.{◌≡◌, ◌+◌, ◌≤◌, length};
ghost use Rattle.lines.specs.Quick.{digits_at, number_behind, second_at, times_at, has_words, row_at, row_of};

use crate::Row;
use crate::bytewise::{self, SPACE};
use crate::getting::LINE_FEED;
use events::{Event, Kind, Side};
use units::Micros;

// The most digits of a time.
const MOST_DIGITS: usize = bytewise::MOST_DIGITS as usize;

// More bytes than any line of a byte has. A place goes with its part, as in `row_of` and `row_line`,
// which say where a line ends by the same place.
const ROOM: usize = 36;

// A number, and the place after its digits.
#[derive(Clone, Copy)]
struct Span {
    value: u64,
    to: usize,
}

// The digits that stand at a place, 13 at most.
#[tactic(auto, using(crate::proofs::Laws::digits_stop, crate::proofs::Laws::digits_end, crate::proofs::Laws::no_digit))]
fn digits(s: &[u8], at: usize) -> Span
    requires { at + 13 ≤ length s.now }
    ensures { result ≡ digits_at s.now 13 at 0 }
{
    let mut value = 0;
    for i in 0..MOST_DIGITS {
        // By `words::is_digit` and a plain `-` it takes 406 instructions an event in place of 388.
        let d = u64::from(s[at + i]).wrapping_sub(0x30);
        if 9 < d {
            return Span { value, to: at + i };
        }
        value = value * 10 + d;
    }
    Span {
        value,
        to: at + MOST_DIGITS,
    }
}

// The number of the digits behind a place, if there is a digit.
fn number(digits: Span, at: usize) -> Option<Span>
    ensures { result ≡ number_behind at digits }
{
    if digits.to == at { None } else { Some(digits) }
}

// The second time, and the line feed after it.
#[tactic(auto, using(crate::proofs::Laws::span_within), unfolding(crate::specs::Quick::second_at))]
fn second(s: &[u8], at: usize, start: u64, side: Side, value: u8) -> Option<Row>
    requires { at + 14 ≤ length s.now }
    ensures { result ≡ second_at s.now at start side value }
{
    let end = number(digits(s, at), at)?;
    if s[end.to] != LINE_FEED {
        return None;
    }
    Some(Row {
        event: Event {
            start: Micros(start),
            end: Micros(end.value),
            kind: Kind::Byte,
            side,
            value,
        },
        to: end.to + 1,
    })
}

// Two times.
#[tactic(auto, using(crate::proofs::Laws::span_within), unfolding(crate::specs::Quick::times_at))]
fn times(s: &[u8], at: usize, side: Side, value: u8) -> Option<Row>
    requires { at + 28 ≤ length s.now }
    ensures { result ≡ times_at s.now at side value }
{
    let start = number(digits(s, at), at)?;
    if s[start.to] != SPACE {
        return None;
    }
    second(s, start.to + 1, start.value, side, value)
}

// Whether the letter B and the spaces stand where they must.
#[tactic(auto, unfolding(crate::specs::Quick::has_words))]
fn has_words(s: &[u8], at: usize) -> bool
    requires { at + 7 ≤ length s.now }
    ensures { result ≡ has_words s.now at }
{
    (s[at] == b'B') & (s[at + 1] == SPACE) & (s[at + 3] == SPACE) & (s[at + 6] == SPACE)
}

// The line that stands at a place.
#[tactic(auto, using(crate::proofs::Laws::nobody_same, crate::proofs::Laws::others_differ), unfolding(crate::specs::Quick::row_at))]
fn row_at(s: &[u8], at: usize) -> Option<Row>
    requires { at + 36 ≤ length s.now }
    ensures { result ≡ row_at s.now at }
{
    if !has_words(s, at) {
        return None;
    }
    let side = events::side_by(s[at + 2]);
    if side == Side::Nobody {
        return None;
    }
    let high = words::hex(s[at + 4])?;
    let low = words::hex(s[at + 5])?;
    times(s, at + 7, side, high * 16 + low)
}

// The line that stands at a place of a part, if it is a byte's and the longest such line would lie
// in the part, and one byte more.
#[tactic(auto, unfolding(crate::specs::Quick::row_of))]
pub fn byte_line(s: &[u8], at: usize) -> Option<Row>
    ensures { result ≡ row_of s.now at }
{
    if s.len().checked_sub(ROOM)? < at {
        return None;
    }
    row_at(s, at)
}
