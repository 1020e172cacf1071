// Reports and counts: made, appended and counted in one place each.
#![tactic(auto)]

ghost use Rattle.std.specs.Prelude.{◌≡◌, length};

mod counting;
mod telling;

pub use counting::{count_byte, count_event, is_full, no_counts};
use phases::Phase;
pub use telling::{make, no_reports};
use units::Micros;

// A report: the bytes it names by the first one's index and their number, the end time of its event,
// its number and its reason. It holds any numbers, since the listing's functions take any report.
#[derive(Clone, Copy)]
pub struct Report {
    pub first: u64,
    pub bytes: u64,
    pub time: Micros,
    pub number: u8,
    pub reason: u8,
}

// The places for the reports of an event.
pub const PLACES: usize = 4;

// The reports of an event: those in the first n places, and in all where n is more. The ghost field
// says to the definitions how long an array of PLACES is.
#[derive(Clone, Copy)]
pub struct Reports {
    pub places: [Report; PLACES],
    pub n: u8,
    ghost full: { length places ≡ 4 },
}

// The seven counts: bytes heard, bytes in reports 1, 2, 3 with 4, and 5, reports 1, reports 2.
#[derive(Clone, Copy, Default)]
pub struct Counts {
    pub heard: u64,
    pub framed: u64,
    pub damaged: u64,
    pub started: u64,
    pub outside: u64,
    pub frames: u64,
    pub damages: u64,
}

// A step under way: what the link will be at, the bytes heard and named, and the reports so far.
#[derive(Clone, Copy)]
pub struct Run {
    pub phase: Phase,
    pub heard: u64,
    pub named: u64,
    pub time: Micros,
    pub reports: Reports,
}
