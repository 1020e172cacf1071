// The two initializations, as the stages that each goes through.
#![tactic(auto)]

ghost use Rattle.std.specs.Prelude.{◌≡◌};
ghost use Rattle.base.specs.Failures.{failure_no};
ghost use Rattle.starts.specs.Starts.{due, first_due, last_due, due_at, origin_of, complement, is_reply_format, fits};
ghost use Rattle.starts.specs.Starts.{is_from, is_early, judged, is_over};
ghost use Rattle.starts.specs.Starts.{after_format, passed_on, kept_one, kept_two, requested, onward, is_last};
ghost use Rattle.starts.specs.Starts.{no_start, slow_start, fast_start};

use base::reason::Failure;
use events::Side;
use keys::Pair;
use units::Micros;

// The byte that is due next.
#[derive(Clone, Copy, Debug, PartialEq, Eq)]
pub enum Stage {
    // the slow start: 55, KB1, KB2, the tester's answer, the unit's
    Sync,
    FirstKey,
    SecondKey,
    KeyBack,
    AddressBack,
    // the fast start's request: format, target, source, 81, checksum
    AskFormat,
    AskTarget,
    AskSource,
    AskService,
    AskSum,
    // its reply: format, target and source (and then a length byte), length byte, C1, KB1, KB2, checksum
    Format,
    Target,
    Source,
    LongTarget,
    LongSource,
    Length,
    Service,
    KeyOne,
    KeyTwo,
    Sum,
}

// What is expected of a byte: the window in which it starts, its side, and whether it is the first of
// a fast start or the last of either.
#[derive(Clone, Copy)]
struct Due {
    earliest: Micros,
    latest: Micros,
    side: Side,
    opening: bool,
    last: bool,
}

// How far an initialization has come: its key bytes as far as they have come, the address of a slow
// one, the sum of a fast one's bytes so far, the stage.
#[derive(Clone, Copy)]
pub struct Start {
    pub pair: Pair,
    pub address: u8,
    pub sum: u8,
    pub stage: Stage,
}

// A byte of a side, in a window.
fn due_from(side: Side, earliest: u64, latest: u64) -> Due
    ensures { result ≡ due side earliest latest }
{
    Due {
        earliest: Micros(earliest),
        latest: Micros(latest),
        side,
        opening: false,
        last: false,
    }
}

// The tester's first byte of a fast start.
fn first_due(side: Side, earliest: u64, latest: u64) -> Due
    ensures { result ≡ first_due side earliest latest }
{
    Due {
        opening: true,
        ..due_from(side, earliest, latest)
    }
}

// The last byte of a start.
fn last_due(side: Side, earliest: u64, latest: u64) -> Due
    ensures { result ≡ last_due side earliest latest }
{
    Due {
        last: true,
        ..due_from(side, earliest, latest)
    }
}

// What is expected of a stage's byte.
#[tactic(auto, unfolding(crate::specs::Starts::due_at))]
fn due_at(stage: Stage) -> Due
    ensures { result ≡ due_at stage }
{
    match stage {
        Stage::Sync => due_from(Side::Unit, 60_000, 300_000),
        Stage::FirstKey => due_from(Side::Unit, 5_000, 20_000),
        Stage::SecondKey => due_from(Side::Unit, 0, 20_000),
        Stage::KeyBack => due_from(Side::Tester, 25_000, 50_000),
        Stage::AddressBack => last_due(Side::Unit, 25_000, 50_000),
        Stage::AskFormat => first_due(Side::Tester, 49_000, 51_000),
        Stage::AskTarget | Stage::AskSource | Stage::AskService | Stage::AskSum => {
            due_from(Side::Tester, 0, 20_000)
        }
        Stage::Format => due_from(Side::Unit, 25_000, 50_000),
        Stage::Target
        | Stage::Source
        | Stage::LongTarget
        | Stage::LongSource
        | Stage::Length
        | Stage::Service
        | Stage::KeyOne
        | Stage::KeyTwo => due_from(Side::Unit, 0, 20_000),
        Stage::Sum => last_due(Side::Unit, 0, 20_000),
    }
}

// Where the time of a stage's byte runs from.
#[tactic(auto, unfolding(crate::specs::Starts::origin_of))]
pub fn origin(stage: Stage, fall: Micros, mark: Micros) -> Micros
    ensures { result ≡ origin_of stage fall mark }
{
    if due_at(stage).opening { fall } else { mark }
}

// 255 minus a byte.
#[tactic(auto, unfolding(crate::specs::Starts::complement))]
pub fn inverse(x: u8) -> u8
    ensures { result ≡ complement x }
{
    255 - x
}

// Whether a byte is the format byte of a fast start's reply.
#[tactic(auto, unfolding(crate::specs::Starts::is_reply_format))]
fn is_reply_format(v: u8) -> bool
    ensures { result ≡ is_reply_format v }
{
    matches!(v, 0x03 | 0x00 | 0x83 | 0x80)
}

// Whether a byte's value fits.
#[tactic(auto, unfolding(crate::specs::Starts::fits))]
fn is_fitting(s: Start, v: u8) -> bool
    ensures { result ≡ fits s v }
{
    match s.stage {
        Stage::Sync => v == 0x55,
        Stage::SecondKey => Pair { kb2: v, ..s.pair }.is_slow_from(s.address),
        Stage::KeyBack => v == inverse(s.pair.kb2),
        Stage::AddressBack => v == inverse(s.address),
        Stage::AskFormat => matches!(v, 0x81 | 0xC1),
        Stage::AskService => v == 0x81,
        Stage::AskSum => v == s.sum,
        Stage::Format => is_reply_format(v),
        Stage::Length => v == 0x03,
        Stage::Service => v == 0xC1,
        Stage::Sum => v == s.sum && s.pair.is_good(),
        Stage::FirstKey
        | Stage::AskTarget
        | Stage::AskSource
        | Stage::Target
        | Stage::Source
        | Stage::LongTarget
        | Stage::LongSource
        | Stage::KeyOne
        | Stage::KeyTwo => true,
    }
}

// Whether a byte comes from the side that is due.
#[tactic(auto, unfolding(crate::specs::Starts::is_from))]
fn is_from(s: Start, side: Side) -> bool
    ensures { result ≡ is_from s side }
{
    events::same_side(side, due_at(s.stage).side)
}

// Whether a byte that comes so long after its origin is early.
#[tactic(auto, unfolding(crate::specs::Starts::is_early))]
fn is_early(s: Start, gap: Micros) -> bool
    ensures { result ≡ is_early s gap }
{
    gap < due_at(s.stage).earliest
}

// Judges a byte that comes so long after its origin.
#[tactic(auto, unfolding(crate::specs::Starts::judged, base::specs::Failures::failure_number, base::specs::Failures::failure_no))]
pub fn judge(s: Start, side: Side, v: u8, gap: Micros) -> Result<(), Failure>
    ensures { failure_no result ≡ judged s side v gap }
{
    if !is_from(s, side) {
        Err(Failure::WrongSide)
    } else if is_early(s, gap) {
        Err(Failure::TooEarly)
    } else if is_fitting(s, v) {
        Ok(())
    } else {
        Err(Failure::Misfit)
    }
}

// Whether the end of the present window has passed, so long after its origin.
#[tactic(auto, unfolding(crate::specs::Starts::is_over))]
pub fn is_past(s: Start, gap: Micros) -> bool
    ensures { result ≡ is_over s gap }
{
    due_at(s.stage).latest < gap
}

// The stage after the reply's format byte.
#[tactic(auto, unfolding(crate::specs::Starts::after_format))]
fn after_format(v: u8) -> Stage
    ensures { result ≡ after_format v }
{
    match v {
        0x83 => Stage::Target,
        0x80 => Stage::LongTarget,
        0x00 => Stage::Length,
        _ => Stage::Service,
    }
}

// A start with one byte more, at the next stage.
fn pass_on(s: Start, v: u8, stage: Stage) -> Start
    ensures { result ≡ passed_on s v stage }
{
    Start {
        stage,
        sum: base::byte_sum(s.sum, v),
        ..s
    }
}

// A start whose byte is KB1.
fn keep_one(s: Start, v: u8, stage: Stage) -> Start
    ensures { result ≡ kept_one s v stage }
{
    Start {
        pair: Pair { kb1: v, ..s.pair },
        ..pass_on(s, v, stage)
    }
}

// A start whose byte is KB2.
fn keep_two(s: Start, v: u8, stage: Stage) -> Start
    ensures { result ≡ kept_two s v stage }
{
    Start {
        pair: Pair { kb2: v, ..s.pair },
        ..pass_on(s, v, stage)
    }
}

// A start whose byte is the request's checksum.
fn end_request(s: Start, stage: Stage) -> Start
    ensures { result ≡ requested s stage }
{
    Start { stage, sum: 0, ..s }
}

// The initialization after a byte that fits.
#[tactic(auto, unfolding(crate::specs::Starts::onward))]
pub fn go_onward(s: Start, v: u8) -> Start
    ensures { result ≡ onward s v }
{
    match s.stage {
        Stage::Sync => pass_on(s, v, Stage::FirstKey),
        Stage::FirstKey => keep_one(s, v, Stage::SecondKey),
        Stage::SecondKey => keep_two(s, v, Stage::KeyBack),
        Stage::KeyBack => pass_on(s, v, Stage::AddressBack),
        Stage::AddressBack => pass_on(s, v, Stage::AddressBack),
        Stage::AskFormat => pass_on(s, v, Stage::AskTarget),
        Stage::AskTarget => pass_on(s, v, Stage::AskSource),
        Stage::AskSource => pass_on(s, v, Stage::AskService),
        Stage::AskService => pass_on(s, v, Stage::AskSum),
        Stage::AskSum => end_request(s, Stage::Format),
        Stage::Format => pass_on(s, v, after_format(v)),
        Stage::Target => pass_on(s, v, Stage::Source),
        Stage::Source => pass_on(s, v, Stage::Service),
        Stage::LongTarget => pass_on(s, v, Stage::LongSource),
        Stage::LongSource => pass_on(s, v, Stage::Length),
        Stage::Length => pass_on(s, v, Stage::Service),
        Stage::Service => pass_on(s, v, Stage::KeyOne),
        Stage::KeyOne => keep_one(s, v, Stage::KeyTwo),
        Stage::KeyTwo => keep_two(s, v, Stage::Sum),
        Stage::Sum => pass_on(s, v, Stage::Sum),
    }
}

// Whether a stage's byte is the last of its initialization.
#[tactic(auto, unfolding(crate::specs::Starts::is_last))]
pub fn is_last(stage: Stage) -> bool
    ensures { result ≡ is_last stage }
{
    due_at(stage).last
}

// No initialization.
#[tactic(auto, unfolding(crate::specs::Starts::no_start))]
pub fn none() -> Start
    ensures { result ≡ no_start }
{
    Start {
        pair: Pair { kb1: 0, kb2: 0 },
        address: 0,
        sum: 0,
        stage: Stage::Sync,
    }
}

// A slow initialization, just after its address.
#[tactic(auto, unfolding(crate::specs::Starts::slow_start, crate::specs::Starts::no_start))]
pub fn slow(address: u8) -> Start
    ensures { result ≡ slow_start address }
{
    Start { address, ..none() }
}

// A fast initialization, just after its wake-up.
#[tactic(auto, unfolding(crate::specs::Starts::fast_start, crate::specs::Starts::no_start))]
pub fn fast() -> Start
    ensures { result ≡ fast_start }
{
    Start {
        stage: Stage::AskFormat,
        ..none()
    }
}
