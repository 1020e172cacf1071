// The lines of a listing, written into a lent buffer at a place. Each function answers the place
// after what it wrote. Where the buffer has fewer bytes from that place on than the bound that stands
// at the function, which no such text exceeds, it writes nothing and answers the place itself.
#![tactic(auto)]

ghost use Rattle.std.specs.Prelude.{◌∷◌, [], ◌++◌, ◌+◌, ◌*◌, ◌≤◌, length};
ghost use Rattle.reports.specs.Reporting.{listed};
ghost use Rattle.words.specs.Writing.{number_most, Puts, Writes};
ghost use Rattle.text.specs.Text.{spaced_text, line_text, head_text, report_text, reports_text, refused_text, end_text};
ghost use Rattle.text.specs.Text.{head_most, line_most, reports_most, refused_most, end_most};

use reports::{Counts, Report, Reports};

// The room for a text, the most bytes that it has: for a report's line, of five numbers, ..
const LINE_MOST: usize = 5 * words::NUMBER_MOST;

// .. the lines of an event's reports, ..
pub const REPORTS_MOST: usize = reports::PLACES * LINE_MOST;

// .. a refused line's, a word and a number, ..
pub const REFUSED_MOST: usize = 8 + words::NUMBER_MOST;

// .. and the end line, a word and eight numbers.
pub const END_MOST: usize = 4 + 8 * words::NUMBER_MOST;

// The header: 31 bytes.
#[tactic(auto, unfolding(crate::specs::Text::head_text))]
pub fn put_head(out: &mut [u8], at: usize) -> usize
    ensures { Writes head_text head_most at out.old result out.new }
{
    words::put_text(out, at, b"report reason first bytes time\n")
}

// Numbers with a space after each.
#[tactic(auto, unfolding(crate::specs::Text::spaced_text))]
fn put_spaced(out: &mut [u8], at: usize, numbers: &[u64]) -> usize
    requires { at + length numbers.now * number_most ≤ length out.old }
    ensures { Puts at (spaced_text numbers.now) (length numbers.now * number_most) out.old result out.new }
{
    let mut to = at;
    for n in numbers {
        to = words::put_number(out, to, *n, words::SPACE);
    }
    to
}

// A line of numbers.
fn put_line(out: &mut [u8], at: usize, before: &[u64], last: u64) -> usize
    requires { at + (length before.now + 1) * number_most ≤ length out.old }
    ensures { Puts at (line_text (before.now ++ last ∷ [])) ((length before.now + 1) * number_most) out.old result out.new }
{
    let to = put_spaced(out, at, before);
    words::put_number(out, to, last, words::LINE_FEED)
}

// A report's line, of at most LINE_MOST bytes.
#[tactic(auto, unfolding(crate::specs::Text::report_text))]
fn put_report(out: &mut [u8], at: usize, x: Report) -> usize
    requires { at + line_most ≤ length out.old }
    ensures { Puts at (report_text x) line_most out.old result out.new }
{
    put_line(
        out,
        at,
        &[x.number as u64, x.reason as u64, x.first, x.bytes],
        x.time.0,
    )
}

// The reports of an event, a line for each: at most REPORTS_MOST bytes.
pub fn put_reports(out: &mut [u8], at: usize, rs: Reports) -> usize
    ensures { Writes (reports_text (listed rs)) reports_most at out.old result out.new }
{
    if !words::has_room(out.len(), at, REPORTS_MOST) {
        return at;
    }
    let mut to = at;
    for x in rs.as_slice() {
        to = put_report(out, to, *x);
    }
    to
}

// The line of a refused line: at most REFUSED_MOST bytes. The number stays a u8, since any is written.
#[tactic(auto, unfolding(crate::specs::Text::refused_text))]
pub fn put_refusal(out: &mut [u8], at: usize, no: u8) -> usize
    ensures { Writes (refused_text no) refused_most at out.old result out.new }
{
    if !words::has_room(out.len(), at, REFUSED_MOST) {
        return at;
    }
    let to = words::put_text(out, at, b"refused ");
    put_line(out, to, &[], no as u64)
}

// The end line, of the seven counts and the bytes held: at most END_MOST bytes.
#[tactic(auto, unfolding(crate::specs::Text::end_text))]
pub fn put_end(out: &mut [u8], at: usize, c: Counts, held: u64) -> usize
    ensures { Writes (end_text c held) end_most at out.old result out.new }
{
    if !words::has_room(out.len(), at, END_MOST) {
        return at;
    }
    let to = words::put_text(out, at, b"end ");
    let counts = [
        c.heard, c.framed, c.damaged, c.started, c.outside, c.frames, c.damages,
    ];
    put_line(out, to, &counts, held)
}
