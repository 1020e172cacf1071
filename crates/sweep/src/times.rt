// Timing codes, to windows and back: every code of a maximum, every pair of P3 min and P4 min, and
// made-up codes.
use crate::marks::{self, MadeUp, Tally};
use keys::Pair;
use timing::{Codes, Limit, Windows};
use units::Micros;

// The greatest gap below 2^28 that does not pass, found bit by bit by `passed` alone.
fn greatest_gap(l: Limit) -> u64 {
    let mut gap = 0;
    for place in 0..28u32 {
        let more = gap | 0x0800_0000 >> place;
        if !timing::passed(l, Micros(more)) {
            gap = more;
        }
    }
    gap
}

// A digest with a window's end more.
fn mix_limit(d: u32, l: Limit) -> u32 {
    if timing::is_unlimited(l) {
        marks::mix(d, 77)
    } else {
        marks::mix_wide(d, greatest_gap(l))
    }
}

// A digest with windows more.
fn mix_windows(d: u32, w: Windows) -> u32 {
    let d = marks::mix_wide(d, w.p2min.0);
    let d = mix_limit(d, w.p2max);
    let d = marks::mix_wide(d, w.p3min.0);
    let d = mix_limit(d, w.p3max);
    marks::mix_wide(d, w.p4min.0)
}

// The windows that stand beside a refusal in a digest.
fn no_windows() -> Windows {
    let none = Micros(0);
    let at_once = timing::until(none);
    Windows {
        p2min: none,
        p2max: at_once,
        p3min: none,
        p3max: at_once,
        p4min: none,
    }
}

// One set of codes, to windows and back.
pub(crate) fn codes_case(t: Tally, c: Codes) -> Tally {
    let (no, w, back) = match timing::windows_of(c) {
        Ok(w) => (0, w, timing::codes_of(w) == Ok(c)),
        Err(why) => (u8::from(why), no_windows(), false),
    };
    let digest = mix_windows(marks::mix(t.digest, u32::from(no)), w);
    t.with(digest, no == 0, back)
}

// Each code of P2 max, then each of P3 max, then each of P3 min with each of P4 min, then P2 min
// one below, at and one above the first P2 maxima.
pub(crate) fn listed_codes(i: u32) -> Codes {
    let low = (i % 256) as u8;
    match i {
        0..256 => Codes {
            p2min: 0,
            p2max: low,
            p3min: 0x0B,
            p3max: 0x14,
            p4min: 0x0A,
        },
        256..512 => Codes {
            p2min: 0x32,
            p2max: 0x02,
            p3min: 0x6E,
            p3max: low,
            p4min: 0x0A,
        },
        512..66048 => Codes {
            p2min: 0,
            p2max: 1,
            p3min: low,
            p3max: 0xFF,
            p4min: ((i - 512) / 256 % 256) as u8,
        },
        _ => {
            let k = (i - 66048) / 3 % 5 + 1;
            Codes {
                p2min: (50 * k + i % 3 - 1) as u8,
                p2max: k as u8,
                p3min: 0x6E,
                p3max: 0x14,
                p4min: 0x0A,
            }
        }
    }
}

// Made-up codes, with P4 min below 64, so that about half of them are allowed.
pub(crate) fn made_codes(mut made: MadeUp) -> Codes {
    Codes {
        p2min: made.byte(),
        p2max: made.byte(),
        p3min: made.byte(),
        p3max: made.byte(),
        p4min: made.byte() % 64,
    }
}

// The set that a KB1 names.
pub(crate) fn set_case(t: Tally, kb1: u8) -> Tally {
    let pair = Pair { kb1, kb2: 0x8F };
    t.with(mix_windows(t.digest, timing::set_of(pair)), false, false)
}
