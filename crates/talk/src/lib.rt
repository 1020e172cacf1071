// Messages of a connected link, byte by byte, and what a frame does.
#![tactic(auto)]

mod cars;

ghost use Rattle.std.specs.Prelude.{◌≡◌, [], ◌∷◌};
ghost use Rattle.base.specs.Reasons.{why_of};
ghost use Rattle.talk.specs.Talk.{is_first, tester_turn, is_stray, is_hasty, unit_turn, turn_reason};
ghost use Rattle.talk.specs.Talk.{has_extra, place_announced, head_reason, frame_reason, first_reason};
ghost use Rattle.talk.specs.Talk.{after_addresses, part_after_format, begun, begun_by, part_reason, later_reason, is_sum, is_free, end_reason};
ghost use Rattle.talk.specs.Talk.{with_seven, after_data, with_part, with_length, with_data, grown};
ghost use Rattle.talk.specs.Talk.{is_exactly, asks_codes, request_of, is_effective, codes_in, windows_for, windows_after};
ghost use Rattle.talk.specs.Talk.{spent, request_after, is_stopped};

use base::reason::Damage;
use events::Side;
use keys::{Form, Pair};
use timing::{Codes, Windows};
use units::Micros;

// Where a number that is bytes side by side is cut: 256 to the fifth, and to the sixth.
const FIVE_BYTES: u64 = 1 << 40;

const SIX_BYTES: u64 = 1 << 48;

// The reply that may come: none, a first one, a further one.
#[derive(Clone, Copy, Debug, PartialEq, Eq)]
pub enum Reply {
    Never,
    First,
    Further,
}

// What the latest tester frame asks for. Stopped is a stop that the unit has answered.
#[derive(Clone, Copy, Debug, PartialEq, Eq)]
pub enum Request {
    Ordinary,
    Stop,
    OwnTiming,
    NewTiming,
    Stopped,
}

// The part of a message that its next byte is.
#[derive(Clone, Copy, Debug, PartialEq, Eq)]
pub enum Part {
    Target,
    Source,
    Length,
    Data,
    Sum,
    // any byte of a car's message, which has no length
    Free,
}

// A message being heard: its first seven data bytes as one number, whose it is, the part that is
// next, whether it has a length byte, its length, the data bytes so far, the sum of all bytes, the
// first data byte; and the reason of damage. Of a car's message: its last byte (`length`: it has
// none), how many bytes it has so far, up to 12 (`at`), the sum of all but the last, and whether its
// head is wrong (`why`). Numbers stay numbers here, and both kinds one struct: a message is part of the
// link, and `step` takes any.
#[derive(Clone, Copy)]
pub struct Message {
    pub seven: u64,
    pub side: Side,
    pub part: Part,
    pub extra: bool,
    pub length: u8,
    pub at: u8,
    pub sum: u8,
    pub first: u8,
    pub why: u8,
}

// Whether a first reply is awaited.
#[tactic(auto, unfolding(crate::specs::Talk::is_first))]
pub fn is_first(reply: Reply) -> bool
    ensures { result ≡ is_first reply }
{
    reply == Reply::First
}

// The reason against a tester's first byte, so long after the mark.
#[tactic(auto, unfolding(crate::specs::Talk::tester_turn, base::specs::Reasons::damage_number, base::specs::Reasons::why_of))]
fn tester_turn(reply: Reply, w: Windows, gap: Micros) -> Option<Damage>
    ensures { why_of result ≡ tester_turn reply w gap }
{
    let early = is_first(reply) | (gap < w.p3min);
    if early { Some(Damage::Early) } else { None }
}

// Whether a unit's first byte is stray.
#[tactic(auto, unfolding(crate::specs::Talk::is_stray))]
fn is_stray(reply: Reply, w: Windows, gap: Micros) -> bool
    ensures { result ≡ is_stray reply w gap }
{
    (reply == Reply::Never) | timing::passed(w.p2max, gap)
}

// Whether a unit's first byte is early.
#[tactic(auto, unfolding(crate::specs::Talk::is_hasty))]
fn is_hasty(w: Windows, gap: Micros) -> bool
    ensures { result ≡ is_hasty w gap }
{
    gap < w.p2min
}

// The reason against a unit's first byte.
#[tactic(auto, unfolding(crate::specs::Talk::unit_turn, base::specs::Reasons::damage_number, base::specs::Reasons::why_of))]
fn unit_turn(reply: Reply, w: Windows, gap: Micros) -> Option<Damage>
    ensures { why_of result ≡ unit_turn reply w gap }
{
    if is_stray(reply, w, gap) {
        Some(Damage::Stray)
    } else if is_hasty(w, gap) {
        Some(Damage::Early)
    } else {
        None
    }
}

// The reason against a first byte by its side and time.
#[tactic(auto, unfolding(crate::specs::Talk::turn_reason))]
fn turn_reason(reply: Reply, w: Windows, side: Side, gap: Micros) -> Option<Damage>
    ensures { why_of result ≡ turn_reason reply w side gap }
{
    if events::is_tester(side) {
        tester_turn(reply, w, gap)
    } else {
        unit_turn(reply, w, gap)
    }
}

// Whether a length byte follows a format byte. (`frame` has this line for itself: shared, it would be a public function more.)
#[tactic(auto, unfolding(crate::specs::Talk::has_extra))]
fn has_extra(f: u8) -> bool
    ensures { result ≡ has_extra f }
{
    f % 64 == 0
}

// Whether KB1 announces the place of a length.
#[tactic(auto, unfolding(crate::specs::Talk::place_announced))]
fn place_announced(kb1: u8, f: u8) -> bool
    ensures { result ≡ place_announced kb1 f }
{
    if has_extra(f) {
        keys::extra_length(kb1)
    } else {
        keys::length_in_format(kb1)
    }
}

// The reason against a format byte.
#[tactic(auto, unfolding(crate::specs::Talk::head_reason, base::specs::Reasons::damage_number, base::specs::Reasons::why_of))]
fn head_reason(kb1: u8, f: u8) -> Option<Damage>
    ensures { why_of result ≡ head_reason kb1 f }
{
    if f / 64 == 1 {
        Some(Damage::ModeOne)
    } else if !keys::takes_form(kb1, frame::format_form(f)) {
        Some(Damage::WrongForm)
    } else if place_announced(kb1, f) {
        None
    } else {
        Some(Damage::WrongLength)
    }
}

// The reason against the first byte of a message of a 14230 link, so long after the mark. (Reply, windows, side and
// gap stay parameters of their own: the promises take them one by one.)
#[tactic(auto, unfolding(crate::specs::Talk::frame_reason, base::specs::Reasons::why_of), using(base::proofs::Reasons::is_some))]
pub fn frame_reason(
    kb1: u8,
    reply: Reply,
    w: Windows,
    side: Side,
    f: u8,
    gap: Micros,
) -> Option<Damage>
    ensures { why_of result ≡ frame_reason kb1 reply w side f gap }
{
    turn_reason(reply, w, side, gap).or_else(|| head_reason(kb1, f))
}

// The same, of either edition.
#[tactic(auto, unfolding(crate::specs::Talk::first_reason))]
pub fn first_reason(
    pair: Pair,
    reply: Reply,
    w: Windows,
    side: Side,
    f: u8,
    gap: Micros,
) -> Option<Damage>
    ensures { why_of result ≡ first_reason pair reply w side f gap }
{
    if pair.is_car() {
        turn_reason(reply, w, side, gap)
    } else {
        frame_reason(pair.kb1, reply, w, side, f, gap)
    }
}

// The part after the addresses.
#[tactic(auto, unfolding(crate::specs::Talk::after_addresses))]
fn after_addresses(extra: bool) -> Part
    ensures { result ≡ after_addresses extra }
{
    if extra { Part::Length } else { Part::Data }
}

// The part after the format byte.
#[tactic(auto, unfolding(crate::specs::Talk::part_after_format))]
fn part_after_format(form: Form, extra: bool) -> Part
    ensures { result ≡ part_after_format form extra }
{
    match form {
        Form::Plain | Form::Foreign => after_addresses(extra),
        Form::Physical | Form::Functional => Part::Target,
    }
}

// A message of a 14230 link, just begun with its format byte.
#[tactic(auto, unfolding(crate::specs::Talk::begun))]
pub fn begin_frame(side: Side, f: u8) -> Message
    ensures { result ≡ begun side f }
{
    let extra = has_extra(f);
    Message {
        part: part_after_format(frame::format_form(f), extra),
        extra,
        length: f % 64,
        sum: f,
        ..cars::empty(side)
    }
}

// A message just begun, of either edition.
#[tactic(auto, unfolding(crate::specs::Talk::begun_by))]
pub fn begin(pair: Pair, side: Side, f: u8) -> Message
    ensures { result ≡ begun_by pair side f }
{
    if pair.is_car() {
        cars::begin_car(side, f)
    } else {
        begin_frame(side, f)
    }
}

// The reason against a byte of the message's own side.
#[tactic(auto, unfolding(base::specs::Reasons::damage_number, base::specs::Reasons::why_of))]
fn part_reason(m: Message, v: u8) -> Option<Damage>
    ensures { why_of result ≡ part_reason m.part m v }
{
    match m.part {
        Part::Length if v == 0 => Some(Damage::WrongLength),
        Part::Sum if v != m.sum => Some(Damage::WrongSum),
        _ => None,
    }
}

// The reason against a later byte of a message.
#[tactic(auto, unfolding(crate::specs::Talk::later_reason, base::specs::Reasons::damage_number, base::specs::Reasons::why_of))]
pub fn later_reason(m: Message, side: Side, v: u8) -> Option<Damage>
    ensures { why_of result ≡ later_reason m side v }
{
    if events::same_side(side, m.side) {
        part_reason(m, v)
    } else {
        Some(Damage::OtherSide)
    }
}

// Whether a message's next byte is its checksum.
#[tactic(auto, unfolding(crate::specs::Talk::is_sum))]
pub fn is_sum(part: Part) -> bool
    ensures { result ≡ is_sum part }
{
    part == Part::Sum
}

// Whether a message is a car's.
#[tactic(auto, unfolding(crate::specs::Talk::is_free))]
fn is_free(part: Part) -> bool
    ensures { result ≡ is_free part }
{
    part == Part::Free
}

// The reason of a message that has ended because 20 ms have passed, or of a car's that a unit's byte ends.
#[tactic(auto, unfolding(crate::specs::Talk::end_reason, base::specs::Reasons::damage_number, base::specs::Reasons::why_of))]
pub fn end_reason(m: Message) -> Option<Damage>
    ensures { why_of result ≡ end_reason m }
{
    if is_free(m.part) {
        cars::car_reason(m)
    } else {
        Some(Damage::BrokenOff)
    }
}

// The first seven data bytes, with the one at an index.
#[tactic(auto, unfolding(crate::specs::Talk::with_seven))]
fn with_seven(seven: u64, at: u8, v: u8) -> u64
    ensures { result ≡ with_seven seven at v }
{
    if at < 7 {
        seven % SIX_BYTES * 256 + v as u64
    } else {
        seven
    }
}

// The part after a data byte.
#[tactic(auto, unfolding(crate::specs::Talk::after_data))]
fn after_data(at: u8, length: u8) -> Part
    ensures { result ≡ after_data at length }
{
    if at < length { Part::Data } else { Part::Sum }
}

// A message with one byte more that is an address or a checksum.
fn with_part(m: Message, part: Part, v: u8) -> Message
    ensures { result ≡ with_part m part v }
{
    Message {
        part,
        sum: base::byte_sum(m.sum, v),
        ..m
    }
}

// A message with its length byte.
fn with_length(m: Message, v: u8) -> Message
    ensures { result ≡ with_length m v }
{
    Message {
        length: v,
        ..with_part(m, Part::Data, v)
    }
}

// A message with one data byte more.
#[tactic(auto, unfolding(crate::specs::Talk::with_data))]
fn with_data(m: Message, v: u8) -> Message
    ensures { result ≡ with_data m v }
{
    let at = base::byte_sum(m.at, 1);
    Message {
        seven: with_seven(m.seven, m.at, v),
        at,
        first: base::either(m.at == 0, v, m.first),
        ..with_part(m, after_data(at, m.length), v)
    }
}

// A message with one byte more.
#[tactic(auto, unfolding(crate::specs::Talk::grown))]
pub fn grow(m: Message, v: u8) -> Message
    ensures { result ≡ grown m v }
{
    match m.part {
        Part::Target => with_part(m, Part::Source, v),
        Part::Source => with_part(m, after_addresses(m.extra), v),
        Part::Length => with_length(m, v),
        Part::Data => with_data(m, v),
        Part::Sum => with_part(m, Part::Sum, v),
        Part::Free => cars::grow_car(m, v),
    }
}

// Whether a frame's data is exactly these two bytes.
#[tactic(auto, unfolding(crate::specs::Talk::is_exactly))]
fn is_exactly(m: Message, a: u8, b: u8) -> bool
    ensures { result ≡ is_exactly m (a ∷ b ∷ []) }
{
    (m.length == 2) & (m.seven == u64::from(u16::from_be_bytes([a, b])))
}

// Whether a frame's data is 83 03 and five codes.
#[tactic(auto, unfolding(crate::specs::Talk::asks_codes))]
fn asks_codes(m: Message) -> bool
    ensures { result ≡ asks_codes m }
{
    (m.length == 7) & (m.seven / FIVE_BYTES == 0x8303)
}

// What a tester frame asks for.
#[tactic(auto, unfolding(crate::specs::Talk::request_of))]
pub fn request_of(m: Message) -> Request
    ensures { result ≡ request_of m }
{
    if m.first == 0x82 {
        Request::Stop
    } else if is_exactly(m, 0x83, 0x01) {
        Request::OwnTiming
    } else if asks_codes(m) {
        Request::NewTiming
    } else {
        Request::Ordinary
    }
}

// Whether a unit frame makes a request take effect.
#[tactic(auto, unfolding(crate::specs::Talk::is_effective))]
fn is_effective(request: Request, m: Message) -> bool
    ensures { result ≡ is_effective request m }
{
    match request {
        Request::Stop => m.first == 0xC2,
        Request::OwnTiming => is_exactly(m, 0xC3, 0x01),
        Request::NewTiming => is_exactly(m, 0xC3, 0x03),
        Request::Ordinary | Request::Stopped => false,
    }
}

// The five codes among the first seven data bytes.
#[tactic(auto, unfolding(crate::specs::Talk::codes_in))]
fn codes_in(seven: u64) -> Codes
    ensures { result ≡ codes_in seven }
{
    let [_, _, _, p2min, p2max, p3min, p3max, p4min] = seven.to_be_bytes();
    Codes {
        p2min,
        p2max,
        p3min,
        p3max,
        p4min,
    }
}

// The windows when a request takes effect.
#[tactic(auto, unfolding(crate::specs::Talk::windows_for), using(crate::proofs::Allowed::allowed_or))]
fn windows_for(request: Request, pair: Pair, seven: u64, w: Windows) -> Windows
    ensures { result ≡ windows_for request pair seven w }
{
    match request {
        Request::Ordinary => w,
        Request::Stop => w,
        Request::OwnTiming => timing::set_of(pair),
        Request::NewTiming => timing::windows_of(codes_in(seven)).unwrap_or(w),
        Request::Stopped => w,
    }
}

// The windows after a unit frame, the first seven data bytes of whose request are given.
#[tactic(auto, unfolding(crate::specs::Talk::windows_after))]
pub fn windows_after(request: Request, m: Message, pair: Pair, seven: u64, w: Windows) -> Windows
    ensures { result ≡ windows_after request m pair seven w }
{
    if is_effective(request, m) {
        windows_for(request, pair, seven, w)
    } else {
        w
    }
}

// A request that has taken effect.
#[tactic(auto, unfolding(crate::specs::Talk::spent))]
fn spend(request: Request) -> Request
    ensures { result ≡ spent request }
{
    match request {
        Request::Stop => Request::Stopped,
        Request::Ordinary | Request::OwnTiming | Request::NewTiming | Request::Stopped => {
            Request::Ordinary
        }
    }
}

// The request after a unit frame.
#[tactic(auto, unfolding(crate::specs::Talk::request_after))]
pub fn request_after(request: Request, m: Message) -> Request
    ensures { result ≡ request_after request m }
{
    if is_effective(request, m) {
        spend(request)
    } else {
        request
    }
}

// Whether the unit has answered a stop.
#[tactic(auto, unfolding(crate::specs::Talk::is_stopped))]
pub fn is_stopped(request: Request) -> bool
    ensures { result ≡ is_stopped request }
{
    request == Request::Stopped
}
