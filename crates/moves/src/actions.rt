// What a start and a byte do.
ghost use Rattle.std.specs.Prelude.{◌≡◌};
ghost use Rattle.base.specs.Reasons.{why_of};
ghost use Rattle.moves.specs.Moves.{is_idle, starting_slow, is_good_low, starting_fast, start_byte};
ghost use Rattle.moves.specs.Moves.{reason_at_first, first_byte, first_frame_byte, later_byte, after_byte, after_stop};

use crate::Move;
use crate::passing::since_origin;
use crate::saying::{Said, making, stay};
use base::reason::{Damage, Down, Failure};
use events::Side;
use phases::{
    Phase, State, begin_start, connect, damage, end_frame, go_down, go_off, hold, is_quiet,
};
use units::Micros;

// The least and the greatest low of a wake-up.
const LEAST_LOW: Micros = Micros(24_000);

const GREATEST_LOW: Micros = Micros(26_000);

// Whether the line was idle long enough before a start.
#[tactic(auto, unfolding(crate::specs::Moves::is_idle))]
fn is_idle(idle: Micros, mark: Micros, start: Micros) -> bool
    ensures { result ≡ is_idle idle mark start }
{
    units::gap(mark, start) >= idle
}

// An address, on a link that is down with this idle time.
#[tactic(auto, unfolding(crate::specs::Moves::starting_slow))]
pub fn starting_slow(idle: Micros, address: u8, mark: Micros, start: Micros) -> Move
    ensures { result ≡ starting_slow idle address mark start }
{
    if is_idle(idle, mark, start) {
        stay(begin_start(Micros(0), starts::slow(address)))
    } else {
        making(Said::NotIdle, go_down(idle))
    }
}

// Whether a wake-up's low is neither short nor long.
#[tactic(auto, unfolding(crate::specs::Moves::is_good_low))]
fn is_good_low(fall: Micros, rise: Micros) -> bool
    ensures { result ≡ is_good_low fall rise }
{
    let low = units::gap(fall, rise);
    (low >= LEAST_LOW) & (low <= GREATEST_LOW)
}

// A wake-up, on a link that is down with this idle time. With `starting_slow` it shares no more than its first answer.
#[tactic(auto, unfolding(crate::specs::Moves::starting_fast, base::specs::Failures::failure_number))]
pub fn starting_fast(idle: Micros, mark: Micros, fall: Micros, rise: Micros) -> Move
    ensures { result ≡ starting_fast idle mark fall rise }
{
    if !is_idle(idle, mark, fall) {
        making(Said::NotIdle, go_down(idle))
    } else if is_good_low(fall, rise) {
        stay(begin_start(fall, starts::fast()))
    } else {
        making(Said::Failed(Failure::WrongLow), go_off())
    }
}

// A byte of an initialization.
#[tactic(auto, unfolding(crate::specs::Moves::start_byte, base::specs::Failures::failure_no), using(base::proofs::Failures::is_some))]
fn start_byte(p: Phase, side: Side, v: u8, gap: Micros) -> Move
    ensures { result ≡ start_byte p side v gap }
{
    match starts::judge(p.start, side, v, gap) {
        Err(why) => making(Said::Failed(why), go_off()),
        Ok(()) if starts::is_last(p.start.stage) => making(Said::Connected, connect(p.start)),
        Ok(()) => stay(begin_start(p.fall, starts::go_onward(p.start, v))),
    }
}

// The reason against the first byte of a message.
#[tactic(auto, unfolding(crate::specs::Moves::reason_at_first))]
fn reason_at_first(p: Phase, side: Side, v: u8, gap: Micros) -> Option<Damage>
    ensures { why_of result ≡ reason_at_first p side v gap }
{
    talk::first_reason(p.start.pair, p.reply, p.windows, side, v, gap)
}

// The first byte of a message.
#[tactic(auto, unfolding(crate::specs::Moves::first_byte, base::specs::Reasons::why_of), using(base::proofs::Reasons::is_some))]
fn first_byte(p: Phase, side: Side, v: u8, gap: Micros) -> Phase
    ensures { result ≡ first_byte p side v gap }
{
    match reason_at_first(p, side, v, gap) {
        None => hold(p, talk::begin(p.start.pair, side, v)),
        Some(why) => damage(p, why.into()),
    }
}

// The same on a 14230 link. (As one function of both, given the message begun, an event of cars takes 524 instructions
// for 515.)
#[tactic(auto, unfolding(crate::specs::Moves::first_frame_byte, base::specs::Reasons::why_of), using(base::proofs::Reasons::is_some))]
pub fn first_frame_byte(p: Phase, side: Side, v: u8, gap: Micros) -> Phase
    ensures { result ≡ first_frame_byte p side v gap }
{
    match talk::frame_reason(p.start.pair.kb1, p.reply, p.windows, side, v, gap) {
        None => hold(p, talk::begin_frame(side, v)),
        Some(why) => damage(p, why.into()),
    }
}

// A later byte of a message.
#[tactic(auto, unfolding(crate::specs::Moves::later_byte, base::specs::Reasons::why_of), using(base::proofs::Reasons::is_some))]
fn later_byte(p: Phase, side: Side, v: u8) -> Move
    ensures { result ≡ later_byte p side v }
{
    match talk::later_reason(p.message, side, v) {
        Some(why) => stay(damage(p, why.into())),
        None if talk::is_sum(p.message.part) => making(Said::Frame, end_frame(p)),
        None => stay(hold(p, talk::grow(p.message, v))),
    }
}

// A byte.
#[tactic(auto, unfolding(crate::specs::Moves::after_byte))]
pub fn after_byte(p: Phase, side: Side, v: u8, mark: Micros, start: Micros) -> Move
    ensures { result ≡ after_byte p side v mark start }
{
    match p.state {
        State::Down => making(Said::Outside, go_down(p.idle)),
        State::Starting => start_byte(p, side, v, since_origin(p, mark, start)),
        State::Quiet => stay(first_byte(p, side, v, units::gap(mark, start))),
        State::Held => later_byte(p, side, v),
        State::Damage => stay(p),
    }
}

// The unit has answered a stop.
#[tactic(auto, unfolding(crate::specs::Moves::after_stop, base::specs::Reasons::down_number))]
pub fn after_stop(p: Phase) -> Move
    ensures { result ≡ after_stop p }
{
    if is_quiet(p.state) & talk::is_stopped(p.request) {
        making(Said::Down(Down::Stopped.into()), go_down(p.windows.p3min))
    } else {
        stay(p)
    }
}
