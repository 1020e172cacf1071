// Messages of an ISO 9141-2 car: a head, one to seven data bytes and the checksum, with no length.
ghost use Rattle.std.specs.Prelude.{◌≡◌};
ghost use Rattle.base.specs.Reasons.{why_of};
ghost use Rattle.talk.specs.Cars.{is_head_byte, counted_up, is_car_size, car_reason, car_grown, car_empty, car_begun};

use crate::{Message, Part};
use base::reason::Damage;
use events::Side;

// The most bytes that are counted, one more than a message may have.
const MOST_COUNTED: u8 = 12;

// Whether the byte at an index is right as one of the head. After the head any is.
#[tactic(auto, unfolding(crate::specs::Cars::is_head_byte))]
fn is_head_byte(side: Side, at: u8, v: u8) -> bool
    ensures { result ≡ is_head_byte side at v }
{
    let tester = events::is_tester(side);
    match at {
        0 => v == base::either(tester, 0x68, 0x48),
        1 => v == base::either(tester, 0x6A, 0x6B),
        2 => !tester | (v == 0xF1),
        _ => true,
    }
}

// One byte more.
#[tactic(auto, unfolding(crate::specs::Cars::counted_up))]
fn count_up(at: u8) -> u8
    ensures { result ≡ counted_up at }
{
    if at < MOST_COUNTED { at + 1 } else { at }
}

// Whether a message may have so many bytes.
#[tactic(auto, unfolding(crate::specs::Cars::is_car_size))]
fn is_car_size(n: u8) -> bool
    ensures { result ≡ is_car_size n }
{
    matches!(n, 5..=11)
}

// A message with one byte more.
#[tactic(auto, unfolding(crate::specs::Cars::car_grown, base::specs::Reasons::damage_number))]
pub(crate) fn grow_car(m: Message, v: u8) -> Message
    ensures { result ≡ car_grown m v }
{
    let headed = is_head_byte(m.side, m.at, v);
    Message {
        part: Part::Free,
        length: v,
        at: count_up(m.at),
        sum: base::byte_sum(m.sum, m.length),
        // with `either` an event takes 182 instructions, and 295 with cars, for 178 and 290
        why: if headed {
            m.why
        } else {
            Damage::WrongForm.into()
        },
        ..m
    }
}

// The reason that a message is damage for if it ends here: its head, then its size, then its sum.
#[tactic(auto, unfolding(crate::specs::Cars::car_reason, base::specs::Reasons::damage_number, base::specs::Reasons::why_of))]
pub(crate) fn car_reason(m: Message) -> Option<Damage>
    ensures { why_of result ≡ car_reason m }
{
    if m.why != base::reason::NONE {
        Some(Damage::WrongForm)
    } else if !is_car_size(m.at) {
        Some(Damage::WrongLength)
    } else if m.length == m.sum {
        None
    } else {
        Some(Damage::WrongSum)
    }
}

// A message before its first byte.
pub(crate) fn empty(side: Side) -> Message
    ensures { result ≡ car_empty side }
{
    Message {
        seven: 0,
        side,
        part: Part::Free,
        extra: false,
        length: 0,
        at: 0,
        sum: 0,
        first: 0,
        why: base::reason::NONE,
    }
}

// A message just begun.
#[tactic(auto, unfolding(crate::specs::Cars::car_begun))]
pub(crate) fn begin_car(side: Side, v: u8) -> Message
    ensures { result ≡ car_begun side v }
{
    grow_car(empty(side), v)
}
