// The seven counts.
ghost use Rattle.std.specs.Prelude.{◌≡◌};
ghost use Rattle.reports.specs.Reporting.{listed};
ghost use Rattle.reports.specs.Counting.{zero_counts, is_full, counted_one, counted_all, counted_byte, counted_event};

use crate::{Counts, Report, Reports};

// The most events that a link takes, and the greatest count that it takes an event with.
const MOST: u64 = 4_000_000_000;

// Counts at 0.
#[tactic(auto, unfolding(crate::specs::Counting::zero_counts))]
pub fn no_counts() -> Counts
    ensures { result ≡ zero_counts }
{
    Counts::default()
}

// Whether no more events are taken. A number that has the bits of all of them is at least each.
#[tactic(auto, unfolding(crate::specs::Counting::is_full))]
pub fn is_full(events: u64, c: Counts) -> bool
    ensures { result ≡ is_full events c }
{
    // One comparison for the eight below, since an event seldom comes near the most.
    let all = events
        | c.heard
        | c.framed
        | c.damaged
        | c.started
        | c.outside
        | c.frames
        | c.damages;
    MOST <= all
        && (MOST <= events
            || MOST < c.heard
            || MOST < c.framed
            || MOST < c.damaged
            || MOST < c.started
            || MOST < c.outside
            || MOST < c.frames
            || MOST < c.damages)
}

// A report is counted.
#[tactic(auto, unfolding(crate::specs::Counting::counted_one))]
fn count_one(c: Counts, x: Report) -> Counts
    ensures { result ≡ counted_one c x }
{
    let frame = x.number == base::report::FRAME;
    let damage = x.number == base::report::DAMAGE;
    let start = matches!(x.number, base::report::CONNECTED | base::report::FAILED);
    let outside = x.number == base::report::OUTSIDE;
    Counts {
        framed: base::count_sum(c.framed, base::either(frame, x.bytes, 0)),
        damaged: base::count_sum(c.damaged, base::either(damage, x.bytes, 0)),
        started: base::count_sum(c.started, base::either(start, x.bytes, 0)),
        outside: base::count_sum(c.outside, base::either(outside, x.bytes, 0)),
        frames: base::count_sum(c.frames, frame as u64),
        damages: base::count_sum(c.damages, damage as u64),
        ..c
    }
}

// An event's reports are counted.
#[tactic(auto, unfolding(crate::specs::Counting::counted_all))]
fn count_all(c: Counts, rs: Reports) -> Counts
    ensures { result ≡ counted_all c (listed rs) }
{
    let mut counts = c;
    // Over all places and not over `as_slice`, with which an event took 229 instructions in place of 188.
    for (i, x) in rs.places.iter().enumerate() {
        if i < rs.n as usize {
            counts = count_one(counts, *x);
        }
    }
    counts
}

// A byte is heard, or none.
#[tactic(auto, unfolding(crate::specs::Counting::counted_byte))]
pub fn count_byte(c: Counts, hears: bool) -> Counts
    ensures { result ≡ counted_byte c hears }
{
    Counts {
        heard: base::count_sum(c.heard, hears as u64),
        ..c
    }
}

// The counts after an event that was taken: its byte if it is one, and its reports.
#[tactic(auto, unfolding(crate::specs::Counting::counted_event))]
pub fn count_event(c: Counts, hears: bool, rs: Reports) -> Counts
    ensures { result ≡ counted_event c hears rs }
{
    count_all(count_byte(c, hears), rs)
}
