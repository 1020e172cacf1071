// What passing time, a closing event, a start and a byte do to a link.
#![tactic(auto)]

mod actions;
mod passing;
mod saying;

pub use actions::{after_byte, after_stop, first_frame_byte, starting_fast, starting_slow};
pub use passing::{
    after_p2, after_p3, after_silence, after_window, close_open, end_open, is_cut_in, is_silent,
    leave, since_origin,
};
use phases::Phase;

// A rule's outcome: the phase after it, and a report, none if its number is 0. (Number and reason stay two u8:
// `reports::make` takes any move.)
#[derive(Clone, Copy)]
pub struct Move {
    pub phase: Phase,
    pub number: u8,
    pub reason: u8,
}
