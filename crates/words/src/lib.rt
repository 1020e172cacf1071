// Words of a line: hex and decimal numbers, read at a place of a line and written at a place of a
// lent buffer. The lines of a listing and the questions and answers of `ask` are made of them.
#![tactic(auto)]

mod digits;
mod reading;
mod writing;

pub use digits::{hex, is_digit};
pub use reading::{is_end, read_byte, read_bytes, read_first, read_number, read_word};
pub use writing::{has_room, put_byte, put_bytes, put_number, put_text};

// The byte between two words.
pub const SPACE: u8 = b' ';

// The byte after a line.
pub const LINE_FEED: u8 = b'\n';

// What stands for no bytes at all.
const DASH: u8 = b'-';

// The room for a number with the byte after it, the most bytes that these have.
pub const NUMBER_MOST: usize = 21;

// What was read, and the place after it.
#[derive(Clone, Copy)]
pub struct Word<T> {
    pub value: T,
    pub to: usize,
}
