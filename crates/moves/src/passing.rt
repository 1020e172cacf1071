// What passing time and a closing event do.
ghost use Rattle.std.specs.Prelude.{◌≡◌};
ghost use Rattle.moves.specs.Moves.{is_silent, ended, after_silence, is_cut_in};
ghost use Rattle.moves.specs.Moves.{after_p2, after_p3, since_origin, after_window};
ghost use Rattle.moves.specs.Moves.{closing, leaving};

use crate::Move;
use crate::saying::{Said, making, stay};
use base::reason::{Damage, Down, Failure};
use events::Side;
use phases::{
    Phase, State, end_frame, go_down, go_off, is_down, is_held, is_open, is_quiet, is_starting,
    settle,
};
use units::Micros;

// 20 ms, after which a message or damage ends.
const BYTE_GAP: Micros = Micros(20_000);

// Whether a gap ends what is open.
#[tactic(auto, unfolding(crate::specs::Moves::is_silent))]
pub fn is_silent(gap: Micros) -> bool
    ensures { result ≡ is_silent gap }
{
    BYTE_GAP < gap
}

// What is open has ended: damage, or a message, which is damage too unless it is right as it stands.
#[tactic(auto, unfolding(crate::specs::Moves::ended, crate::specs::Moves::is_right, crate::specs::Moves::loss_reason, base::specs::Reasons::why_of), using(base::proofs::Reasons::is_some))]
pub fn end_open(p: Phase) -> Move
    ensures { result ≡ ended p }
{
    if !is_held(p.state) {
        making(Said::Damage(p.message.why), settle(p))
    } else if let Some(why) = talk::end_reason(p.message) {
        making(Said::Damage(why.into()), settle(p))
    } else {
        making(Said::Frame, end_frame(p))
    }
}

// 20 ms pass with something open.
#[tactic(auto, unfolding(crate::specs::Moves::after_silence))]
pub fn after_silence(p: Phase, gap: Micros) -> Move
    ensures { result ≡ after_silence p gap }
{
    if is_open(p.state) & is_silent(gap) {
        end_open(p)
    } else {
        stay(p)
    }
}

// Whether a byte of this side ends the message held: under 94 94 the unit's byte ends the tester's
// message.
#[tactic(auto, unfolding(crate::specs::Moves::is_cut_in))]
pub fn is_cut_in(p: Phase, side: Side) -> bool
    ensures { result ≡ is_cut_in p side }
{
    is_held(p.state)
        & events::is_tester(p.message.side)
        & events::is_unit(side)
        & p.start.pair.is_quick()
}

// P2 max passes while a first reply is awaited.
#[tactic(auto, unfolding(crate::specs::Moves::after_p2))]
pub fn after_p2(p: Phase, gap: Micros) -> Move
    ensures { result ≡ after_p2 p gap }
{
    if is_quiet(p.state) & talk::is_first(p.reply) & timing::passed(p.windows.p2max, gap) {
        making(Said::NoReply, settle(p))
    } else {
        stay(p)
    }
}

// P3 max passes while no first reply is awaited.
#[tactic(auto, unfolding(crate::specs::Moves::after_p3, base::specs::Reasons::down_number))]
pub fn after_p3(p: Phase, gap: Micros) -> Move
    ensures { result ≡ after_p3 p gap }
{
    if is_quiet(p.state) & !talk::is_first(p.reply) & timing::passed(p.windows.p3max, gap) {
        making(Said::Down(Down::IdleOver.into()), go_down(Micros(0)))
    } else {
        stay(p)
    }
}

// The time since the origin of an initialization's next byte, the mark or the fall.
#[tactic(auto, unfolding(crate::specs::Moves::since_origin))]
pub fn since_origin(p: Phase, mark: Micros, time: Micros) -> Micros
    ensures { result ≡ since_origin p mark time }
{
    units::gap(starts::origin(p.start.stage, p.fall, mark), time)
}

// The present window of an initialization passes.
#[tactic(auto, unfolding(crate::specs::Moves::after_window, base::specs::Failures::failure_number))]
pub fn after_window(p: Phase, mark: Micros, time: Micros) -> Move
    ensures { result ≡ after_window p mark time }
{
    if is_starting(p.state) & starts::is_past(p.start, since_origin(p, mark, time)) {
        making(Said::Failed(Failure::WindowOver), go_off())
    } else {
        stay(p)
    }
}

// An address, a wake-up or a drop closes what is open.
#[tactic(auto, unfolding(crate::specs::Moves::closing, crate::specs::Moves::loss_reason, phases::specs::Phases::is_held, phases::specs::Phases::is_open, phases::specs::Phases::is_starting, base::specs::Reasons::damage_number, base::specs::Failures::failure_number))]
pub fn close_open(p: Phase) -> Move
    ensures { result ≡ closing p }
{
    match p.state {
        State::Held => making(Said::Damage(Damage::Closed.into()), settle(p)),
        State::Damage => making(Said::Damage(p.message.why), settle(p)),
        State::Starting => making(Said::Failed(Failure::Closed), go_off()),
        State::Down | State::Quiet => stay(p),
    }
}

// A connected link with nothing open goes down; a drop of one that is down only sets its idle time back. (Any number is taken
// as the reason, so it stays a u8.)
#[tactic(auto, unfolding(crate::specs::Moves::leaving, base::specs::Reasons::down_number))]
pub fn leave(p: Phase, reason: u8) -> Move
    ensures { result ≡ leaving p reason }
{
    if is_quiet(p.state) {
        making(Said::Down(reason), go_off())
    } else if is_down(p.state) & (reason == u8::from(Down::Dropped)) {
        stay(go_off())
    } else {
        stay(p)
    }
}
