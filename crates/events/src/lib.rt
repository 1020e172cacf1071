// Events, and which of them are refused.
#![tactic(auto)]

ghost use Rattle.std.specs.Prelude.{◌≡◌};
ghost use Rattle.base.specs.Refusals.{no_of};
ghost use Rattle.events.specs.Events.{kind_by, side_by, is_byte, marks, is_tester, is_unit, same_side};
ghost use Rattle.events.specs.Events.{is_unknown, is_too_late, is_out_of_order, refusal};

use base::Refusal;
use units::Micros;

// What an event is. Other is what is none of the five: an event that is refused with 1.
#[derive(Clone, Copy, Debug, PartialEq, Eq)]
pub enum Kind {
    Address,
    WakeUp,
    Byte,
    Tick,
    Drop,
    Other,
}

// Who sent a byte. Nobody is neither: such a byte is refused with 1.
#[derive(Clone, Copy, Debug, PartialEq, Eq)]
pub enum Side {
    Tester,
    Unit,
    Nobody,
}

// An event. A wake-up falls at its start and rises at its end; a tick and a drop have one time,
// which stands as both. Only a byte has a side, only a byte and an address have a value.
#[derive(Clone, Copy, Debug, PartialEq, Eq)]
pub struct Event {
    pub start: Micros,
    pub end: Micros,
    pub kind: Kind,
    pub side: Side,
    pub value: u8,
}

// The latest time that an event may have.
const LATEST: Micros = Micros(4_000_000_000_000);

// An event's kind by its letter: A, W, B, T or D.
#[tactic(auto, unfolding(crate::specs::Events::kind_by))]
pub fn kind_by(letter: u8) -> Kind
    ensures { result ≡ kind_by letter }
{
    match letter {
        b'A' => Kind::Address,
        b'W' => Kind::WakeUp,
        b'B' => Kind::Byte,
        b'T' => Kind::Tick,
        b'D' => Kind::Drop,
        _ => Kind::Other,
    }
}

// A byte's side by its letter: t or e.
#[tactic(auto, unfolding(crate::specs::Events::side_by))]
pub fn side_by(letter: u8) -> Side
    ensures { result ≡ side_by letter }
{
    match letter {
        b't' => Side::Tester,
        b'e' => Side::Unit,
        _ => Side::Nobody,
    }
}

// Whether an event is a byte.
#[tactic(auto, unfolding(crate::specs::Events::is_byte))]
pub fn is_byte(kind: Kind) -> bool
    ensures { result ≡ is_byte kind }
{
    kind == Kind::Byte
}

// Whether an event's end becomes the link's mark.
#[tactic(auto, unfolding(crate::specs::Events::marks))]
pub fn is_marking(kind: Kind) -> bool
    ensures { result ≡ marks kind }
{
    matches!(kind, Kind::Address | Kind::WakeUp | Kind::Byte)
}

// Whether a side is the tester's.
#[tactic(auto, unfolding(crate::specs::Events::is_tester))]
pub fn is_tester(side: Side) -> bool
    ensures { result ≡ is_tester side }
{
    side == Side::Tester
}

// Whether a side is the unit's.
#[tactic(auto, unfolding(crate::specs::Events::is_unit))]
pub fn is_unit(side: Side) -> bool
    ensures { result ≡ is_unit side }
{
    side == Side::Unit
}

// Whether two sides are the same.
#[tactic(auto, unfolding(crate::specs::Events::same_side, crate::specs::Events::is_tester, crate::specs::Events::is_unit, crate::specs::Events::is_nobody))]
pub fn same_side(a: Side, b: Side) -> bool
    ensures { result ≡ same_side a b }
{
    a == b
}

// Whether an event's kind or side is unknown.
#[tactic(auto, unfolding(crate::specs::Events::is_unknown, crate::specs::Events::is_other, crate::specs::Events::is_byte, crate::specs::Events::is_nobody))]
fn unknown(e: Event) -> bool
    ensures { result ≡ is_unknown e }
{
    (e.kind == Kind::Other) | (is_byte(e.kind) & (e.side == Side::Nobody))
}

// Whether an event has a time that is too late.
#[tactic(auto, unfolding(crate::specs::Events::is_too_late))]
fn too_late(e: Event) -> bool
    ensures { result ≡ is_too_late e }
{
    (LATEST < e.start) | (LATEST < e.end)
}

// Whether an event ends before it starts, or starts before the clock.
#[tactic(auto, unfolding(crate::specs::Events::is_out_of_order))]
fn out_of_order(clock: Micros, e: Event) -> bool
    ensures { result ≡ is_out_of_order clock e }
{
    (e.end < e.start) | (e.start < clock)
}

// Why an event is refused, if it is. `full` is whether no more events are taken.
#[tactic(auto, unfolding(crate::specs::Events::refusal, base::specs::Refusals::no_of, base::specs::Refusals::number_of))]
pub fn refused(clock: Micros, full: bool, e: Event) -> Result<(), Refusal>
    ensures { no_of result ≡ refusal clock full e }
{
    if unknown(e) {
        return Err(Refusal::Unknown);
    }
    if too_late(e) {
        return Err(Refusal::TooLate);
    }
    if out_of_order(clock, e) {
        return Err(Refusal::OutOfOrder);
    }
    if full {
        return Err(Refusal::TooMany);
    }
    Ok(())
}
