// A line, byte by byte.
ghost use Rattle.std.specs.Prelude.{◌≡◌};
ghost use Rattle.lines.specs.Lines.{digit_on, begun, fresh_reading, unreadable, lettered};
ghost use Rattle.lines.specs.Lines.{spaced, sided, high_read, low_read, takes_digit, time_read, start_read, end_read};
ghost use Rattle.lines.specs.Lines.{read_byte, is_letter, is_empty, is_last, is_whole, no_event, event_of};

use crate::{Place, Reading};
use events::{Event, Kind, Side};
use units::Micros;

// The byte between two words.
pub(crate) const SPACE: u8 = 0x20;

// The most digits of a time.
pub(crate) const MOST_DIGITS: u32 = 13;

// A number with one decimal digit more: the last 13 of them.
#[tactic(auto, unfolding(crate::specs::Lines::digit_on))]
fn digit_on(n: u64, b: u8) -> u64
    ensures { result ≡ digit_on n b }
{
    n % 1_000_000_000_000 * 10 + (b as u64).saturating_sub(0x30)
}

// A line of a kind, of which no more than its letter was read.
fn begin_with(kind: Kind, place: Place) -> Reading
    ensures { result ≡ begun kind place }
{
    Reading {
        start: 0,
        end: 0,
        digits: 0,
        value: 0,
        kind,
        side: Side::Nobody,
        place,
    }
}

// A line of which nothing was read.
pub fn begin() -> Reading
    ensures { result ≡ fresh_reading }
{
    begin_with(Kind::Other, Place::Letter)
}

// A line that can't be read.
fn give_up() -> Reading
    ensures { result ≡ unreadable }
{
    begin_with(Kind::Other, Place::Nowhere)
}

// The event's letter was read.
#[tactic(auto, unfolding(crate::specs::Lines::lettered))]
fn read_letter(kind: Kind) -> Reading
    ensures { result ≡ lettered kind }
{
    match kind {
        Kind::Address => begin_with(kind, Place::BeforeHex),
        Kind::WakeUp => begin_with(kind, Place::BeforeStart),
        Kind::Byte => begin_with(kind, Place::BeforeSide),
        Kind::Tick | Kind::Drop => begin_with(kind, Place::BeforeTime),
        Kind::Other => give_up(),
    }
}

// A space, and what is next.
#[tactic(auto, unfolding(crate::specs::Lines::spaced))]
fn read_space(r: Reading, b: u8, place: Place) -> Reading
    ensures { result ≡ spaced r b place }
{
    if b == SPACE {
        Reading { place, ..r }
    } else {
        give_up()
    }
}

#[tactic(auto, unfolding(crate::specs::Lines::sided))]
fn read_side(r: Reading, side: Side) -> Reading
    ensures { result ≡ sided r side }
{
    match side {
        Side::Tester | Side::Unit => Reading {
            side,
            place: Place::BeforeHex,
            ..r
        },
        Side::Nobody => give_up(),
    }
}

// The first of two hex digits.
#[tactic(auto, unfolding(crate::specs::Lines::high_read))]
fn read_high(r: Reading, b: u8) -> Reading
    ensures { result ≡ high_read r b }
{
    match words::hex(b) {
        Some(h) => Reading {
            value: h * 16,
            place: Place::Low,
            ..r
        },
        None => give_up(),
    }
}

// The second.
#[tactic(auto, unfolding(crate::specs::Lines::low_read))]
fn read_low(r: Reading, b: u8) -> Reading
    ensures { result ≡ low_read r b }
{
    match words::hex(b) {
        Some(h) => Reading {
            value: base::byte_sum(r.value, h),
            place: Place::BeforeStart,
            ..r
        },
        None => give_up(),
    }
}

// Whether a byte is one more digit of a time.
#[tactic(auto, unfolding(crate::specs::Lines::takes_digit))]
fn takes_digit(r: Reading, b: u8) -> bool
    ensures { result ≡ takes_digit r b }
{
    words::is_digit(b) & (r.digits < MOST_DIGITS)
}

// A byte of the only time.
#[tactic(auto, unfolding(crate::specs::Lines::time_read, crate::specs::Lines::takes_digit))]
fn read_time(r: Reading, b: u8) -> Reading
    ensures { result ≡ time_read r b }
{
    if takes_digit(r, b) {
        let n = digit_on(r.start, b);
        Reading {
            start: n,
            end: n,
            digits: r.digits + 1,
            place: Place::Time,
            ..r
        }
    } else {
        give_up()
    }
}

// A byte of the first of two times, or the space after it.
#[tactic(auto, unfolding(crate::specs::Lines::start_read, crate::specs::Lines::takes_digit))]
fn read_start(r: Reading, b: u8) -> Reading
    ensures { result ≡ start_read r b }
{
    if takes_digit(r, b) {
        Reading {
            start: digit_on(r.start, b),
            digits: r.digits + 1,
            place: Place::Start,
            ..r
        }
    } else if (b == SPACE) & (0 < r.digits) {
        Reading {
            end: 0,
            digits: 0,
            place: Place::End,
            ..r
        }
    } else {
        give_up()
    }
}

// A byte of the second.
#[tactic(auto, unfolding(crate::specs::Lines::end_read, crate::specs::Lines::takes_digit))]
fn read_end(r: Reading, b: u8) -> Reading
    ensures { result ≡ end_read r b }
{
    if takes_digit(r, b) {
        Reading {
            end: digit_on(r.end, b),
            digits: r.digits + 1,
            place: Place::End,
            ..r
        }
    } else {
        give_up()
    }
}

// The next byte of a line.
#[tactic(auto, unfolding(crate::specs::Lines::read_byte))]
pub fn read_byte(r: Reading, b: u8) -> Reading
    ensures { result ≡ read_byte r b }
{
    match r.place {
        Place::Letter => read_letter(events::kind_by(b)),
        Place::BeforeSide => read_space(r, b, Place::AtSide),
        Place::AtSide => read_side(r, events::side_by(b)),
        Place::BeforeHex => read_space(r, b, Place::High),
        Place::High => read_high(r, b),
        Place::Low => read_low(r, b),
        Place::BeforeTime => read_space(r, b, Place::Time),
        Place::Time => read_time(r, b),
        Place::BeforeStart => read_space(r, b, Place::Start),
        Place::Start => read_start(r, b),
        Place::End => read_end(r, b),
        Place::Nowhere => give_up(),
    }
}

// Whether the event's letter is next.
#[tactic(auto, unfolding(crate::specs::Lines::is_letter))]
fn is_letter(place: Place) -> bool
    ensures { result ≡ is_letter place }
{
    matches!(place, Place::Letter)
}

// Whether nothing of a line was read.
#[tactic(auto, unfolding(crate::specs::Lines::is_empty))]
pub fn is_empty(r: Reading) -> bool
    ensures { result ≡ is_empty r }
{
    is_letter(r.place)
}

// Whether a line may end with the digits at hand.
#[tactic(auto, unfolding(crate::specs::Lines::is_last))]
fn is_last(place: Place) -> bool
    ensures { result ≡ is_last place }
{
    matches!(place, Place::Time | Place::End)
}

// Whether all of a line was read.
#[tactic(auto, unfolding(crate::specs::Lines::is_whole))]
fn is_whole(r: Reading) -> bool
    ensures { result ≡ is_whole r }
{
    is_last(r.place) & (0 < r.digits)
}

// The event that stands for a line that can't be read: it is of no kind.
fn no_event() -> Event
    ensures { result ≡ no_event }
{
    Event {
        start: Micros(0),
        end: Micros(0),
        kind: Kind::Other,
        side: Side::Nobody,
        value: 0,
    }
}

// A line's event, where the line ends.
#[tactic(auto, unfolding(crate::specs::Lines::event_of))]
pub fn event_of(r: Reading) -> Event
    ensures { result ≡ event_of r }
{
    if is_whole(r) {
        Event {
            start: Micros(r.start),
            end: Micros(r.end),
            kind: r.kind,
            side: r.side,
            value: r.value,
        }
    } else {
        no_event()
    }
}
