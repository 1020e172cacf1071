// Short ways for the common byte. Under these tests the answer is the one that the rules give:
// `proofs/Ways.antt`.
ghost use Rattle.std.specs.Prelude.{◌≡◌, Ok};
ghost use Rattle.link.specs.Answers.{answered_as};
ghost use Rattle.link.specs.Quick.{limit_of, is_calm, cuts_by, went_on, is_inside, goes_on, is_first_byte};

use crate::{Answer, Link};
use events::Event;
use phases::{Phase, State};
use reports::no_reports;
use talk::Part;
use timing::Limit;
use units::Micros;

// How long a connected link may be quiet.
#[tactic(auto, unfolding(crate::specs::Quick::limit_of))]
fn limit_of(p: Phase) -> Limit
    ensures { result ≡ limit_of p }
{
    if talk::is_first(p.reply) {
        p.windows.p2max
    } else {
        p.windows.p3max
    }
}

// Whether no time runs out.
#[tactic(auto, unfolding(crate::specs::Quick::is_calm))]
pub(crate) fn is_calm(p: Phase, mark: Micros, start: Micros) -> bool
    ensures { result ≡ is_calm p mark start }
{
    match p.state {
        State::Down => true,
        State::Starting => !starts::is_past(p.start, moves::since_origin(p, mark, start)),
        State::Quiet => !timing::passed(limit_of(p), units::gap(mark, start)),
        State::Held | State::Damage => !moves::is_silent(units::gap(mark, start)),
    }
}

// Whether an event is a byte that ends what is held.
#[tactic(auto, unfolding(crate::specs::Quick::cuts_by))]
pub(crate) fn cuts(p: Phase, e: Event) -> bool
    ensures { result ≡ cuts_by p e }
{
    moves::is_cut_in(p, e.side) & events::is_byte(e.kind)
}

// A byte that makes no report.
#[tactic(auto, unfolding(crate::specs::Quick::went_on))]
pub(crate) fn go_on(l: Link, e: Event, p: Phase) -> Answer
    ensures { answered_as l (Ok result) ≡ went_on l e p }
{
    Answer {
        link: Link {
            clock: e.end,
            mark: e.end,
            taken: base::count_sum(l.taken, 1),
            heard: base::count_sum(l.heard, 1),
            named: l.named,
            phase: p,
        },
        reports: no_reports(),
    }
}

// Whether a message's next byte may have any value.
#[tactic(auto, unfolding(crate::specs::Quick::is_inside))]
fn is_inside(part: Part) -> bool
    ensures { result ≡ is_inside part }
{
    !matches!(part, Part::Length | Part::Sum)
}

// Whether a byte goes on with the message held.
#[tactic(auto, unfolding(crate::specs::Quick::goes_on))]
pub(crate) fn goes_on(l: Link, e: Event) -> bool
    ensures { result ≡ goes_on l e }
{
    let p = l.phase;
    events::is_byte(e.kind)
        & phases::is_held(p.state)
        & !moves::is_silent(units::gap(l.mark, e.start))
        & (events::same_side(e.side, p.message.side) & is_inside(p.message.part))
}

// Whether a byte is the first of a message, on a 14230 link.
#[tactic(auto, unfolding(crate::specs::Quick::is_first_byte))]
pub(crate) fn is_first_byte(l: Link, e: Event) -> bool
    ensures { result ≡ is_first_byte l e }
{
    let p = l.phase;
    events::is_byte(e.kind)
        & phases::is_quiet(p.state)
        & !timing::passed(limit_of(p), units::gap(l.mark, e.start))
        & !p.start.pair.is_car()
}
