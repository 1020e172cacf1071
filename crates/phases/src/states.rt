// The states by name, and the phases that a link moves to.
ghost use Rattle.std.specs.Prelude.{◌≡◌};
ghost use Rattle.phases.specs.Phases.{is_down, is_starting, is_quiet, is_held, is_open, no_message, no_windows, unconnected, down, off, starting, connected};
ghost use Rattle.phases.specs.Phases.{talking, holding, with_why, damaged, settled, timed, asked, answered, framed};

use crate::{Phase, State};
use events::Side;
use starts::Start;
use talk::{Message, Part, Reply, Request};
use timing::Windows;
use units::Micros;

// Whether a link is down.
#[tactic(auto, unfolding(crate::specs::Phases::is_down))]
pub fn is_down(state: State) -> bool
    ensures { result ≡ is_down state }
{
    state == State::Down
}

// Whether a link is in an initialization.
#[tactic(auto, unfolding(crate::specs::Phases::is_starting))]
pub fn is_starting(state: State) -> bool
    ensures { result ≡ is_starting state }
{
    state == State::Starting
}

// Whether a link is connected with nothing open.
#[tactic(auto, unfolding(crate::specs::Phases::is_quiet))]
pub fn is_quiet(state: State) -> bool
    ensures { result ≡ is_quiet state }
{
    state == State::Quiet
}

// Whether a link holds a message.
#[tactic(auto, unfolding(crate::specs::Phases::is_held))]
pub fn is_held(state: State) -> bool
    ensures { result ≡ is_held state }
{
    state == State::Held
}

// Whether a link holds a message or skips damage.
#[tactic(auto, unfolding(crate::specs::Phases::is_open))]
pub fn is_open(state: State) -> bool
    ensures { result ≡ is_open state }
{
    matches!(state, State::Held | State::Damage)
}

// No message.
fn no_message() -> Message
    ensures { result ≡ no_message }
{
    Message {
        seven: 0,
        side: Side::Nobody,
        part: Part::Target,
        extra: false,
        length: 0,
        at: 0,
        sum: 0,
        first: 0,
        why: base::reason::NONE,
    }
}

// No windows.
fn no_windows() -> Windows
    ensures { result ≡ no_windows }
{
    Windows {
        p2min: Micros(0),
        p2max: timing::until(Micros(0)),
        p3min: Micros(0),
        p3max: timing::until(Micros(0)),
        p4min: Micros(0),
    }
}

// A link that is not connected.
fn unconnected_at(state: State, idle: Micros, fall: Micros, start: Start) -> Phase
    ensures { result ≡ unconnected state idle fall start }
{
    Phase {
        windows: no_windows(),
        message: no_message(),
        idle,
        fall,
        asked: 0,
        state,
        reply: Reply::Never,
        request: Request::Ordinary,
        start,
    }
}

// Down, with the idle time before the next start.
#[tactic(auto, unfolding(crate::specs::Phases::down))]
pub fn go_down(idle: Micros) -> Phase
    ensures { result ≡ down idle }
{
    unconnected_at(State::Down, idle, Micros(0), starts::none())
}

// Down, as a fresh link is.
pub fn go_off() -> Phase
    ensures { result ≡ off }
{
    go_down(Micros(timing::IDLE_AT_POWER_ON))
}

// In an initialization.
#[tactic(auto, unfolding(crate::specs::Phases::starting))]
pub fn begin_start(fall: Micros, start: Start) -> Phase
    ensures { result ≡ starting fall start }
{
    unconnected_at(State::Starting, Micros(0), fall, start)
}

// Just connected.
#[tactic(auto, unfolding(crate::specs::Phases::connected))]
pub fn connect(start: Start) -> Phase
    ensures { result ≡ connected start }
{
    Phase {
        windows: timing::set_of(start.pair),
        ..unconnected_at(State::Quiet, Micros(0), Micros(0), start)
    }
}

// Connected: what is open, and the reply that may come.
#[tactic(auto, unfolding(crate::specs::Phases::talking))]
fn talk_on(p: Phase, state: State, reply: Reply, message: Message) -> Phase
    ensures { result ≡ talking p state reply message }
{
    Phase {
        state,
        reply,
        message,
        ..p
    }
}

// With a message held.
#[tactic(auto, unfolding(crate::specs::Phases::holding))]
pub fn hold(p: Phase, m: Message) -> Phase
    ensures { result ≡ holding p m }
{
    talk_on(p, State::Held, p.reply, m)
}

// With damage being skipped. (A message holds any number, so the reason stays a u8.)
#[tactic(auto, unfolding(crate::specs::Phases::damaged))]
pub fn damage(p: Phase, why: u8) -> Phase
    ensures { result ≡ damaged p why }
{
    talk_on(p, State::Damage, p.reply, Message { why, ..p.message })
}

// With nothing open, and no reply expected.
#[tactic(auto, unfolding(crate::specs::Phases::settled))]
pub fn settle(p: Phase) -> Phase
    ensures { result ≡ settled p }
{
    talk_on(p, State::Quiet, Reply::Never, p.message)
}

// With other windows, and another latest request.
#[tactic(auto, unfolding(crate::specs::Phases::timed))]
fn with_timing(p: Phase, windows: Windows, seven: u64, request: Request) -> Phase
    ensures { result ≡ timed p windows seven request }
{
    Phase {
        windows,
        asked: seven,
        request,
        ..p
    }
}

// After a tester frame.
#[tactic(auto, unfolding(crate::specs::Phases::asked))]
fn ask(p: Phase) -> Phase
    ensures { result ≡ asked p }
{
    let m = p.message;
    let q = talk_on(p, State::Quiet, Reply::First, m);
    with_timing(q, p.windows, m.seven, talk::request_of(m))
}

// After a unit frame.
#[tactic(auto, unfolding(crate::specs::Phases::answered))]
fn answer(p: Phase) -> Phase
    ensures { result ≡ answered p }
{
    let m = p.message;
    let w = talk::windows_after(p.request, m, p.start.pair, p.asked, p.windows);
    let q = talk_on(p, State::Quiet, Reply::Further, m);
    with_timing(q, w, p.asked, talk::request_after(p.request, m))
}

// After the frame that was held.
#[tactic(auto, unfolding(crate::specs::Phases::framed))]
pub fn end_frame(p: Phase) -> Phase
    ensures { result ≡ framed p }
{
    if events::is_tester(p.message.side) {
        ask(p)
    } else {
        answer(p)
    }
}
