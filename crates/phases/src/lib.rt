// What a link is at: a state by name, beside what each state uses.
#![tactic(auto)]

mod states;

use starts::Start;
pub use states::{
    begin_start, connect, damage, end_frame, go_down, go_off, hold, is_down, is_held, is_open,
    is_quiet, is_starting, settle,
};
use talk::{Message, Reply, Request};
use timing::Windows;
use units::Micros;

// Down; in an initialization; connected with nothing open, with a message held, with damage being
// skipped.
#[derive(Clone, Copy, Debug, PartialEq, Eq)]
pub enum State {
    Down,
    Starting,
    Quiet,
    Held,
    Damage,
}

// The state, beside what each state uses. Numbers of eight bytes come first and single bytes are
// eight: there is no padding. (Not an enum with data: the promises carry along what a state does not use.)
#[derive(Clone, Copy)]
pub struct Phase {
    pub windows: Windows,
    pub message: Message,
    // how long the line must be idle before the next start, while the link is down
    pub idle: Micros,
    pub fall: Micros,
    // the first seven data bytes of the latest tester frame
    pub asked: u64,
    pub state: State,
    pub reply: Reply,
    pub request: Request,
    // an initialization; its key bytes are the link's once it is connected
    pub start: Start,
}
