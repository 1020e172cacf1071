// What a report says, and a move that makes one.
ghost use Rattle.std.specs.Prelude.{◌≡◌};
ghost use Rattle.moves.specs.Moves.{still};
ghost use Rattle.moves.specs.Saying.{says};

use crate::Move;
use base::reason::{Failure, NONE};
use base::report;
use phases::Phase;

// What a report says. Damage and down have the number of their reason: a message holds any, and `leave` is given any.
#[derive(Clone, Copy)]
pub(crate) enum Said {
    Frame,
    Damage(u8),
    Connected,
    Failed(Failure),
    Outside,
    NoReply,
    Down(u8),
    NotIdle,
}

// No report.
pub(crate) fn stay(phase: Phase) -> Move
    ensures { result ≡ still phase }
{
    Move {
        phase,
        number: 0,
        reason: NONE,
    }
}

// A report.
pub(crate) fn making(said: Said, phase: Phase) -> Move
    ensures { result ≡ says said phase }
{
    let (number, reason) = match said {
        Said::Frame => (report::FRAME, NONE),
        Said::Damage(why) => (report::DAMAGE, why),
        Said::Connected => (report::CONNECTED, NONE),
        Said::Failed(why) => (report::FAILED, why.into()),
        Said::Outside => (report::OUTSIDE, NONE),
        Said::NoReply => (report::NO_REPLY, NONE),
        Said::Down(why) => (report::DOWN, why),
        Said::NotIdle => (report::NOT_IDLE, NONE),
    };
    Move {
        phase,
        number,
        reason,
    }
}
