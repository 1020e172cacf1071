// A line of a listing's input, read into an event, however the input is cut.
#![tactic(auto)]

mod bytewise;
mod getting;
mod quick;

pub use bytewise::{begin, event_of, is_empty, read_byte};
use events::{Event, Kind, Side};
pub use getting::{get_line, got_row};
pub use quick::byte_line;

// What the next byte of a line is to be. A tick and a drop have one time, the others two. Nowhere:
// the line can't be read, whatever follows.
#[derive(Clone, Copy, Debug, PartialEq, Eq)]
pub enum Place {
    Letter,
    BeforeSide,
    AtSide,
    BeforeHex,
    High,
    Low,
    BeforeTime,
    Time,
    BeforeStart,
    Start,
    End,
    Nowhere,
}

// A line as far as it was read: its times, how many digits the one at hand has, its value, kind and
// side, and what is next.
#[derive(Clone, Copy, Debug, PartialEq, Eq)]
pub struct Reading {
    pub start: u64,
    pub end: u64,
    pub digits: u32,
    pub value: u8,
    pub kind: Kind,
    pub side: Side,
    pub place: Place,
}

// What a part of the input has from a place on: the event of its line, if the line ends in the part;
// what is read of the line that goes on; the place after the bytes that were read.
#[derive(Clone, Copy, Debug, PartialEq, Eq)]
pub struct Got {
    pub line: Option<Event>,
    pub reading: Reading,
    pub at: usize,
}

// The event of a byte's line that was read at once, and the place after the line.
#[derive(Clone, Copy, Debug, PartialEq, Eq)]
pub struct Row {
    pub event: Event,
    pub to: usize,
}
