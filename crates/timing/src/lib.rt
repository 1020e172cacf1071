// Timing windows, the five codes that change them, and the sets that key bytes name.
#![tactic(auto)]

ghost use Rattle.std.specs.Prelude.{◌≡◌};
ghost use Rattle.timing.specs.Timing.{until_time, no_limit, is_unlimited, time_of, is_passed, is_below};
ghost use Rattle.timing.specs.Timing.{named_set, set_of, is_allowed};
ghost use Rattle.timing.specs.Timing.{min_of, p2_max_of, p3_max_of, windows_by, answer_decoded, decoded_of};
ghost use Rattle.timing.specs.Timing.{min_code, p2_steps_code, p2_code, p3_code, codes_by, answer_encoded, encoded_of};

mod p2max;

use base::Refusal;
use keys::{Edition, Pair};
use units::{HalfMs, Micros, Step25, Step250};

// The end of a window: a time, or no limit. How no limit is kept is nobody else's business: an end is
// made by `until` and `no_limit`, and asked by `passed`; `time_of` gives the time of one that has one.
// `until` takes every time, the greatest too, which then is no limit: so a `Limit` is a time and no enum.
#[derive(Clone, Copy, Debug, PartialEq, Eq)]
pub struct Limit(Micros);

// The windows that codes can change. P1 is 0 to 20 ms and P4 max is 20 ms, always.
#[derive(Clone, Copy, Debug, PartialEq, Eq)]
pub struct Windows {
    pub p2min: Micros,
    pub p2max: Limit,
    pub p3min: Micros,
    pub p3max: Limit,
    pub p4min: Micros,
}

// The five code bytes, as a frame carries them.
#[derive(Clone, Copy, Debug, PartialEq, Eq)]
pub struct Codes {
    pub p2min: u8,
    pub p2max: u8,
    pub p3min: u8,
    pub p3max: u8,
    pub p4min: u8,
}

// How long the line is idle before the first address or wake-up, in microseconds; and after a failed
// one, a drop or a restart.
pub const IDLE_AT_POWER_ON: u64 = 300_000;

// The normal set.
const NORMAL: Windows = Windows {
    p2min: Micros(25_000),
    p2max: Limit(Micros(50_000)),
    p3min: Micros(55_000),
    p3max: Limit(Micros(5_000_000)),
    p4min: Micros(5_000),
};

// The extended set.
const EXTENDED: Windows = Windows {
    p2min: Micros(0),
    p2max: Limit(Micros(1_000_000)),
    p3min: Micros(5_500),
    ..NORMAL
};

// The set of a car with 94 94, which may answer at once.
const QUICK: Windows = Windows {
    p2min: Micros(0),
    ..NORMAL
};

// The end of a window that has one.
pub fn until(m: Micros) -> Limit
    ensures { result ≡ until_time m }
{
    Limit(m)
}

// The end of a window that has none: the greatest number of microseconds stands for it.
pub fn no_limit() -> Limit
    ensures { result ≡ no_limit }
{
    Limit(Micros(u64::MAX))
}

// Whether a window has no end.
#[tactic(auto, unfolding(crate::specs::Timing::is_unlimited))]
pub fn is_unlimited(l: Limit) -> bool
    ensures { result ≡ is_unlimited l }
{
    l == no_limit()
}

// The time of a window's end, and 0 where it has none.
#[tactic(auto, unfolding(crate::specs::Timing::time_of))]
pub fn time_of(l: Limit) -> Micros
    ensures { result ≡ time_of l }
{
    if is_unlimited(l) { Micros(0) } else { l.0 }
}

// Whether a window's end has passed after a gap. One without an end never passes: no number of
// microseconds is above the one that stands for it.
#[tactic(auto, using(crate::proofs::Limits::plainly_passed))]
pub fn passed(l: Limit, gap: Micros) -> bool
    ensures { result ≡ is_passed l gap }
{
    l.0 < gap
}

// Whether a minimum is below its maximum.
#[tactic(auto, unfolding(crate::specs::Timing::is_below))]
fn below(m: Micros, l: Limit) -> bool
    ensures { result ≡ is_below m l }
{
    is_unlimited(l) || m < l.0
}

// The set that KB1 names.
#[tactic(auto, unfolding(crate::specs::Timing::named_set))]
fn named_set(kb1: u8) -> Windows
    ensures { result ≡ named_set kb1 }
{
    if keys::is_extended(kb1) {
        EXTENDED
    } else {
        NORMAL
    }
}

// The set that key bytes name, which a connected link starts with.
#[tactic(auto, unfolding(crate::specs::Timing::set_of))]
pub fn set_of(pair: Pair) -> Windows
    ensures { result ≡ set_of pair }
{
    match pair.edition() {
        Edition::Iso14230 => named_set(pair.kb1),
        Edition::Car08 => NORMAL,
        Edition::Car94 => QUICK,
    }
}

// A minimum by its code.
#[tactic(auto, unfolding(crate::specs::Timing::min_of))]
fn min_of(code: u8) -> Micros
    ensures { result ≡ min_of code }
{
    HalfMs::by_code(code).micros()
}

// P2 max by its code.
#[tactic(auto, unfolding(crate::specs::Timing::p2_max_of))]
fn p2_max_of(code: u8) -> Limit
    ensures { result ≡ p2_max_of code }
{
    match code {
        0xFF => no_limit(),
        _ => until(p2max::p2_half(code).micros()),
    }
}

// P3 max by its code.
#[tactic(auto, unfolding(crate::specs::Timing::p3_max_of))]
fn p3_max_of(code: u8) -> Limit
    ensures { result ≡ p3_max_of code }
{
    match code {
        0xFF => no_limit(),
        _ => until(Step250::by_code(code).micros()),
    }
}

// The windows that codes stand for, allowed or not.
#[tactic(auto, unfolding(crate::specs::Timing::windows_by))]
fn windows_by(c: Codes) -> Windows
    ensures { result ≡ windows_by c }
{
    Windows {
        p2min: min_of(c.p2min),
        p2max: p2_max_of(c.p2max),
        p3min: min_of(c.p3min),
        p3max: p3_max_of(c.p3max),
        p4min: min_of(c.p4min),
    }
}

// Whether windows are allowed.
#[tactic(auto, unfolding(crate::specs::Timing::is_allowed))]
fn is_allowed(w: Windows) -> bool
    ensures { result ≡ is_allowed w }
{
    below(w.p2min, w.p2max)
        && below(w.p3min, w.p3max)
        && w.p4min < Micros(20_000)
        && w.p4min < w.p3min
}

// Codes become windows.
#[tactic(auto, unfolding(crate::specs::Timing::decoded_of, base::specs::Refusals::number_of, base::specs::Refusals::no_of))]
pub fn windows_of(c: Codes) -> Result<Windows, Refusal>
    ensures { answer_decoded result ≡ decoded_of c }
{
    let w = windows_by(c);
    if is_allowed(w) {
        Ok(w)
    } else {
        Err(Refusal::BadTiming)
    }
}

// The code that can give a minimum.
#[tactic(auto, unfolding(crate::specs::Timing::min_code))]
fn min_code(m: Micros) -> u8
    ensures { result ≡ min_code m }
{
    HalfMs::of(m).code()
}

// The code of P2 max that can give so many steps of 25 ms.
#[tactic(auto, unfolding(crate::specs::Timing::p2_steps_code))]
fn p2_steps_code(s: Step25) -> u8
    ensures { result ≡ p2_steps_code s }
{
    if s.0 <= 0xF0 {
        s.0 as u8
    } else if s.0 / 256 <= 14 {
        (0xF0 + s.0 / 256) as u8
    } else {
        0xFF
    }
}

// The code that can give a P2 max.
#[tactic(auto, unfolding(crate::specs::Timing::p2_code))]
fn p2_code(l: Limit) -> u8
    ensures { result ≡ p2_code l }
{
    if is_unlimited(l) {
        0xFF
    } else {
        p2_steps_code(Step25::of(l.0))
    }
}

// The code that can give a P3 max.
#[tactic(auto, unfolding(crate::specs::Timing::p3_code))]
fn p3_code(l: Limit) -> u8
    ensures { result ≡ p3_code l }
{
    if is_unlimited(l) {
        0xFF
    } else {
        Step250::of(l.0).code()
    }
}

// The only codes that can give these windows.
#[tactic(auto, unfolding(crate::specs::Timing::codes_by))]
fn codes_by(w: Windows) -> Codes
    ensures { result ≡ codes_by w }
{
    Codes {
        p2min: min_code(w.p2min),
        p2max: p2_code(w.p2max),
        p3min: min_code(w.p3min),
        p3max: p3_code(w.p3max),
        p4min: min_code(w.p4min),
    }
}

// Windows become codes.
#[tactic(auto, unfolding(crate::specs::Timing::encoded_of, crate::specs::Timing::same_windows, base::specs::Refusals::number_of, base::specs::Refusals::no_of))]
pub fn codes_of(w: Windows) -> Result<Codes, Refusal>
    ensures { answer_encoded result ≡ encoded_of w }
{
    let c = codes_by(w);
    if is_allowed(w) && windows_by(c) == w {
        Ok(c)
    } else {
        Err(Refusal::BadTiming)
    }
}
