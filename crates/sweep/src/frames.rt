// Frames: made-up plans built into made-up buffers and read again, and made-up slices that look like
// frames, read under other key bytes.
ghost use Rattle.std.specs.Prelude.{◌<◌, ◌≤◌};

use crate::marks::{self, MadeUp, Tally};
use frame::Plan;
use keys::Pair;

// The good values of KB1, so that most plans can be built.
const GOOD: [u8; 18] = [
    0xD5, 0xD6, 0x57, 0xD9, 0xDA, 0x5B, 0x5D, 0x5E, 0xDF, 0xE5, 0xE6, 0x67, 0xE9, 0xEA, 0x6B, 0x6D,
    0x6E, 0xEF,
];

// Made-up key bytes: mostly a good pair.
fn made_pair(mut made: MadeUp) -> Pair {
    let kb1 = if made.below(8) == 0 {
        made.byte()
    } else {
        GOOD[made.below(18) as usize]
    };
    Pair { kb1, kb2: 0x8F }
}

// A made-up plan, with this choice of the length's place.
fn made_plan(seed: u32, choice: u8) -> Plan {
    let mut made = MadeUp(seed);
    let first = made.next();
    Plan {
        choice,
        pair: made_pair(first),
        form: (first.upper() % 4) as u8,
        target: made.byte(),
        source: made.byte(),
    }
}

// A made-up length below `end`: half of them below 70.
fn made_length(seed: u32, end: u32) -> usize
    requires { 70 ≤ end }
    ensures { result < end }
{
    let mut made = MadeUp(seed);
    let most = if made.below(2) == 0 { 70 } else { end };
    made.below(most) as usize
}

// Fills a slice with made-up bytes.
fn fill(seed: u32, s: &mut [u8]) {
    let mut made = MadeUp(seed);
    for b in s {
        *b = made.byte();
    }
}

// Makes a slice look like a frame of its size, now and then one off, with mostly the right checksum.
fn dress(seed: u32, s: &mut [u8]) {
    if s.len() < 5 {
        return;
    }
    let mut made = MadeUp(seed);
    let look = made.below(4);
    let b = made.next();
    // One in eight is said to be one byte shorter than it is, and one in eight has a sum one too high.
    let size = ((s.len() % 256) as u8).wrapping_sub((b.upper() % 8 / 7) as u8);
    let addressed = 128 + (b.0 / 524288 % 2) as u8 * 64;
    // The format byte, and the extra length byte with its place, which is in the data where there is none.
    let (has_extra, has_addresses) = (2 <= look, look % 2 == 1);
    let (format, at, extra) = match (has_extra, has_addresses) {
        (false, false) => (size.wrapping_sub(2) % 64, 4, size.wrapping_sub(5)),
        (false, true) => (
            addressed + size.wrapping_sub(4) % 64,
            4,
            size.wrapping_sub(5),
        ),
        (true, false) => (0, 1, size.wrapping_sub(3)),
        (true, true) => (addressed, 3, size.wrapping_sub(5)),
    };
    s[0] = format;
    s[at] = extra;
    if let Some((last, front)) = s.split_last_mut() {
        let sum = front.iter().fold(0u8, |sum, &x| sum.wrapping_add(x));
        *last = sum.wrapping_add((b.0 / 1048576 % 8 / 7) as u8);
    }
}

// Reads a slice, and mixes all that comes of it.
fn read_case(t: Tally, pair: Pair, s: &[u8]) -> Tally {
    let read = frame::read(pair, s);
    let (first, place) = match read {
        Ok(f) => (
            frame::number_of(f.form) as u64 * 65536 + f.target as u64 * 256 + f.source as u64,
            (f.start as u64 % 65536) * 65536 + f.len as u64 % 65536,
        ),
        Err(why) => (u64::from(u8::from(why)) << 24, 0),
    };
    let a = marks::mix_wide(marks::mix_wide(t.digest, first), place);
    let digest = marks::mix_all(a, frame::contents(pair, s));
    t.with(digest, false, read.is_ok())
}

// One made-up plan with made-up data and a made-up buffer, built by this choice: the answer and the
// whole buffer are mixed, and what was built is read. `build` takes any number for a choice.
pub(crate) fn frame_case(t: Tally, seed: u32, choice: u8) -> Tally {
    let mut data = [0u8; 260];
    let mut out = [0u8; 270];
    fill(seed, &mut data);
    fill(MadeUp(seed).next().0, &mut out);
    let p = made_plan(seed, choice);
    let n = made_length(marks::mix(seed, 1), 261);
    let room = made_length(marks::mix(seed, 2), 271);
    let built = frame::build(p, &data[..n], &mut out[..room]);
    let (no, len) = match built {
        Ok(len) => (0, len),
        Err(why) => (u8::from(why), 0),
    };
    let a = marks::mix_wide(t.digest, u64::from(no) << 16 | len as u64 % 65536);
    let digest = marks::mix_all(a, &out);
    let t = t.with(digest, built.is_ok(), false);
    read_case(t, p.pair, &out[..len.min(room)])
}

// One made-up slice, its front dressed as a frame, and read under made-up key bytes.
pub(crate) fn slice_case(t: Tally, seed: u32) -> Tally {
    let mut s = [0u8; 270];
    fill(seed, &mut s);
    let n = made_length(marks::mix(seed, 1), 270);
    dress(marks::mix(seed, 2), &mut s[..n]);
    read_case(t, made_pair(MadeUp(marks::mix(seed, 3))), &s[..n])
}
