// A listing: lines of events in, lines of reports out, part by part.
#![tactic(auto)]

ghost use Rattle.std.specs.Prelude.{◌≡◌, ◌+◌, ◌≤◌, length, drop};
ghost use Rattle.words.specs.Writing.{Writes};
ghost use Rattle.lines.specs.Getting.{got_of};
ghost use Rattle.listing.specs.Listing.{fresh_lister, held_of, ending_of};
ghost use Rattle.listing.specs.Parts.{answer_most, ending_most, Parted};
ghost use Rattle.listing.specs.Turns.{Acted, reading_after, RowAt, Glided, Stretched, Turned, Ended};

use base::Refusal;
use events::Event;
use lines::{Got, Reading, Row};
use link::Link;
use reports::Counts;

// Who lists: the link, its counts, and the line of input that has not ended.
#[derive(Clone, Copy)]
pub struct Lister {
    pub link: Link,
    pub counts: Counts,
    pub reading: Reading,
}

// What became of a part of the input: the lister after it, how many bytes of the part were read, and
// how many were written.
#[derive(Clone, Copy)]
pub struct Part {
    pub lister: Lister,
    pub at: usize,
    pub put: usize,
}

// How far bytes went on with the message held: link and counts after them, the place of the next
// line, and that line if it was read at once.
#[derive(Clone, Copy)]
struct Stretch {
    link: Link,
    counts: Counts,
    at: usize,
    row: Option<Row>,
}

// No line of input has more written for it than an answer's lines, ..
pub const ANSWER_MOST: usize = text::REPORTS_MOST;

// .. nor has the end of the input: these of a last line, and the end line.
pub const ENDING_MOST: usize = ANSWER_MOST + text::END_MOST;

// A listing begins: a fresh link, counts at 0, and no line yet. The header is `text::put_head`'s.
pub fn begin() -> Lister
    ensures { result ≡ fresh_lister }
{
    Lister {
        link: link::fresh(),
        counts: reports::no_counts(),
        reading: lines::begin(),
    }
}

// A line has ended: its event makes a step, and its answer's lines are written: its reports, or its
// refusal. (By the two halves of `step`: through it a line `T 5` that is refused takes 557 instructions
// in place of 312, since what hands on an `Err` fills the room of an `Ok` with zeros.)
fn act(part: Part, e: Event, out: &mut [u8]) -> Part
    requires { part.put + answer_most ≤ length out.old }
    ensures { Acted part.lister e part.at part.put out.old result out.new }
{
    let reading = lines::begin();
    let counts = part.lister.counts;
    match link::respond(part.lister.link, counts, e) {
        Ok(a) => Part {
            put: text::put_reports(out, part.put, a.reports),
            lister: Lister {
                link: a.link,
                counts: link::counted::<Refusal>(counts, Ok(a), e),
                reading,
            },
            ..part
        },
        Err(why) => Part {
            put: text::put_refusal(out, part.put, why.into()),
            lister: Lister {
                reading,
                ..part.lister
            },
            ..part
        },
    }
}

// The lines of bytes that go on with the message held, as far as they follow one another, where a
// line begins. Nothing is written for them.
fn glide(k: Link, c: Counts, s: &[u8], from: usize) -> Stretch
    ensures { Glided k c s.now from result }
{
    let mut y = Stretch {
        link: k,
        counts: c,
        at: from,
        row: None,
    };
    while let Some(row) = lines::byte_line(s, y.at) {
        if !link::runs_on(y.link, y.counts, row.event) {
            return Stretch {
                row: Some(row),
                ..y
            };
        }
        y.link = link::run_on(y.link, row.event);
        y.counts = reports::count_byte(y.counts, true);
        y.at = row.to;
    }
    y
}

// The same of a lister, which may be within a line.
fn stretch_from(l: Lister, s: &[u8], from: usize) -> Stretch
    ensures { Stretched l s.now from result }
{
    if lines::is_empty(l.reading) {
        glide(l.link, l.counts, s, from)
    } else {
        Stretch {
            link: l.link,
            counts: l.counts,
            at: from,
            row: None,
        }
    }
}

// The reading after so many lines: the one in front of them if there are none.
#[tactic(auto, unfolding(crate::specs::Turns::reading_after))]
fn reading_after(r: Reading, from: usize, at: usize) -> Reading
    ensures { result ≡ reading_after r from at }
{
    if from == at { r } else { lines::begin() }
}

// The next line, which may have been read at once.
#[tactic(auto, using(crate::proofs::Laws::picked))]
fn pick(r: Reading, row: Option<Row>, s: &[u8], at: usize) -> Got
    requires { RowAt r row s.now at }
    ensures { result ≡ got_of r (drop at s.now) at }
{
    match row {
        Some(row) => lines::got_row(row),
        None => lines::get_line(r, s, at),
    }
}

// What was got of a line is taken.
#[tactic(auto, using(crate::proofs::Laws::turned_act, crate::proofs::Laws::turned_cut))]
fn take_line(part: Part, g: Got, s: &[u8], out: &mut [u8]) -> Part
    requires g_value { g ≡ got_of part.lister.reading (drop part.at s.now) part.at }
    requires answer_most_in_bounds { part.put + answer_most ≤ length out.old }
    ensures { Turned part.lister s.now part.at part.put out.old result out.new }
{
    match g.line {
        Some(event) => act(Part { at: g.at, ..part }, event, out),
        None => Part {
            lister: Lister {
                reading: g.reading,
                ..part.lister
            },
            at: g.at,
            ..part
        },
    }
}

// Lines that write nothing, and one that may.
#[tactic(auto, using(crate::proofs::Laws::row_of_pick, crate::proofs::Laws::turned_join))]
fn turn(part: Part, s: &[u8], out: &mut [u8]) -> Part
    requires { part.put + answer_most ≤ length out.old }
    ensures { Turned part.lister s.now part.at part.put out.old result out.new }
{
    let y = stretch_from(part.lister, s, part.at);
    let reading = reading_after(part.lister.reading, part.at, y.at);
    let g = pick(reading, y.row, s, y.at);
    let at_line = Part {
        lister: Lister {
            link: y.link,
            counts: y.counts,
            reading,
        },
        at: y.at,
        ..part
    };
    take_line(at_line, g, s, out)
}

// Lists a part of the input, as far as the buffer has room for what may be written for one more line.
#[tactic(auto, using(crate::proofs::Laws::part_none, crate::proofs::Laws::going_start))]
pub fn list_part(l: Lister, s: &[u8], out: &mut [u8]) -> Part
    ensures { Parted l s.now out.old result out.new }
{
    let mut part = Part {
        lister: l,
        at: 0,
        put: 0,
    };
    let Some(room) = out.len().checked_sub(ANSWER_MOST) else {
        return part;
    };
    while (part.at < s.len()) & (part.put <= room) {
        part = turn(part, s, out);
    }
    part
}

// The bytes that no report has named.
#[tactic(auto, unfolding(crate::specs::Listing::held_of))]
fn held(l: Link) -> u64
    ensures { result ≡ held_of l }
{
    l.heard.saturating_sub(l.named)
}

// The last line, if its line feed is missing: as if the line feed came.
fn end_line(l: Lister, out: &mut [u8]) -> Part
    requires { answer_most ≤ length out.old }
    ensures { Ended l out.old result out.new }
{
    if lines::is_empty(l.reading) {
        Part {
            lister: l,
            at: 0,
            put: 0,
        }
    } else {
        list_part(l, b"\n", out)
    }
}

// The input has ended: a last line without its line feed, and the end line. Where the buffer has
// fewer than ENDING_MOST bytes, nothing is written and the answer is 0.
pub fn finish(l: Lister, out: &mut [u8]) -> usize
    ensures { Writes (ending_of l) ending_most 0 out.old result out.new }
{
    if out.len() < ENDING_MOST {
        return 0;
    }
    let p = end_line(l, out);
    text::put_end(out, p.put, p.lister.counts, held(p.lister.link))
}
