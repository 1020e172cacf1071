// The link: events in, reports out, and the counts brought up to date.
#![tactic(auto)]

mod quick;
mod running;
mod stepping;

use phases::Phase;
use reports::{Counts, Reports};
pub use running::{run_on, runs_on};
pub use stepping::{counted, fresh, respond, step};
use units::Micros;

// A link: its clock and mark, the events taken, the bytes heard, those that reports have named, and
// what it is at.
#[derive(Clone, Copy)]
pub struct Link {
    pub clock: Micros,
    pub mark: Micros,
    pub taken: u64,
    pub heard: u64,
    pub named: u64,
    pub phase: Phase,
}

// What an event that was taken is answered with: the link after it, and its reports.
#[derive(Clone, Copy)]
pub struct Answer {
    pub link: Link,
    pub reports: Reports,
}

// A step of an event that was taken: the answer, and the counts after it.
#[derive(Clone, Copy)]
pub struct Stepped {
    pub answer: Answer,
    pub counts: Counts,
}
