// Frames: built into a lent buffer, and read from a slice that must be exactly one frame.
#![tactic(auto)]

mod builder;
mod layout;
mod reader;

pub use builder::build;
pub use layout::{format_form, number_of};
pub use reader::{contents, read};

// Where a length stands: in the format byte, or in an extra byte after the addresses.
#[derive(Clone, Copy)]
enum Place {
    Format,
    Extra,
}

// Where the length goes in what is built: in the format byte where it can stand there and otherwise in the extra byte, so that
// the frame is shortest; in the format byte only; in the extra byte only.
pub const SHORTEST: u8 = 0;

pub const IN_FORMAT_BYTE: u8 = 1;

pub const IN_EXTRA_BYTE: u8 = 2;

// What to build: where the length goes (one of these three), the key bytes, the form (0 none, 1 physical, 2 functional) and the
// addresses.
#[derive(Clone, Copy)]
pub struct Plan {
    // `build` takes any number as the choice and as the form, and refuses one above 2 with 6: both stay numbers
    pub choice: u8,
    pub pair: keys::Pair,
    pub form: u8,
    pub target: u8,
    pub source: u8,
}

// What the front of a slice says of a frame that starts there: its form, where its data starts and how long it is.
#[derive(Clone, Copy)]
struct Front {
    form: keys::Form,
    start: u8,
    len: u8,
}

// A frame that was read: its form and its addresses, 0 where it carries none, and where in the slice its data starts and how
// long it is.
#[derive(Clone, Copy)]
pub struct Frame {
    pub form: keys::Form,
    pub target: u8,
    pub source: u8,
    pub start: usize,
    pub len: usize,
}
