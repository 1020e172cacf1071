// Runs the values on the bench that are to be run, and prints what came beside what should.
#![tactic(auto)]

use base::Refusal;
use keys::Pair;
use std::{fmt, io};

// An answer of building: the frame's length or the refusal, and the first four bytes of the buffer.
#[derive(Clone, Copy, PartialEq, Eq)]
struct Answer {
    built: Result<usize, Refusal>,
    first: [u8; 4],
}

impl fmt::Display for Answer {
    fn fmt<W: fmt::Write>(&self, f: &mut fmt::Formatter<W>) -> fmt::Result {
        let (no, len) = match self.built {
            Ok(len) => (0, len),
            Err(why) => (u8::from(why), 0),
        };
        let [a, b, c, d] = self.first;
        write!(f, "{no} {len} {a:02X} {b:02X} {c:02X} {d:02X}")
    }
}

// A value to run: so many bytes under this KB1 by this choice, and the answer that is expected. A
// choice is a number, since `build` takes any.
#[derive(Clone, Copy)]
struct Value {
    choice: u8,
    kb1: u8,
    size: usize,
    want: Answer,
}

// A byte that the buffer holds before anything is built into it.
const UNTOUCHED: u8 = 0xAA;

// Builds the value's bytes, at most 64, in form 1 for 11 from F1, and answers what came of it.
fn built(value: &Value) -> Answer {
    let data = [7u8; 64];
    let mut out = [UNTOUCHED; 80];
    let plan = frame::Plan {
        choice: value.choice,
        pair: Pair {
            kb1: value.kb1,
            kb2: 0x8F,
        },
        form: 1,
        target: 0x11,
        source: 0xF1,
    };
    let m = value.size.min(64);
    Answer {
        built: frame::build(plan, &data[..m], &mut out),
        first: [out[0], out[1], out[2], out[3]],
    }
}

// Runs a value and prints its line; whether it is right.
fn run(rt: &impl Print, value: &Value) -> io::Result<bool> {
    let Value {
        choice,
        kb1,
        size,
        want,
    } = *value;
    let got = built(value);
    let right = got == want;
    let verdict = if right { "right" } else { "WRONG" };
    println!(rt;
        "{size} bytes under {kb1:02X} 8F in form 1 by choice {choice}: {got}, should be {want}: {verdict}"
    )?;
    Ok(right)
}

// A value that is built: the length and the first four bytes that are expected.
fn taken(choice: u8, kb1: u8, size: usize, len: usize, first: [u8; 4]) -> Value {
    let want = Answer {
        built: Ok(len),
        first,
    };
    Value {
        choice,
        kb1,
        size,
        want,
    }
}

// A value that is refused: the refusal that is expected, and a buffer that nothing touched.
fn refused(choice: u8, kb1: u8, size: usize, why: Refusal) -> Value {
    let want = Answer {
        built: Err(why),
        first: [UNTOUCHED; 4],
    };
    Value {
        choice,
        kb1,
        size,
        want,
    }
}

fn main(rt: HostRuntime) -> io::Result<()> {
    println!(rt; "number, length, first four bytes of the buffer")?;
    let values = [
        // The values of document 01.
        taken(frame::SHORTEST, 0xE9, 63, 67, [0xBF, 0x11, 0xF1, 7]),
        refused(frame::SHORTEST, 0xE9, 64, Refusal::BadLength),
        taken(frame::SHORTEST, 0xEF, 64, 69, [0x80, 0x11, 0xF1, 0x40]),
        // Those of the other choices.
        taken(frame::IN_FORMAT_BYTE, 0xEF, 63, 67, [0xBF, 0x11, 0xF1, 7]),
        refused(frame::IN_FORMAT_BYTE, 0xEF, 64, Refusal::BadLength),
        refused(frame::IN_FORMAT_BYTE, 0xEA, 2, Refusal::BadLength),
        taken(frame::IN_EXTRA_BYTE, 0xEF, 2, 7, [0x80, 0x11, 0xF1, 2]),
        refused(frame::IN_EXTRA_BYTE, 0xE9, 2, Refusal::BadLength),
        refused(3, 0xEF, 2, Refusal::BadForm),
    ];
    let mut all = true;
    for value in values.iter() {
        all &= run(&rt, value)?;
    }
    println!(rt; "{}", if all { "all right" } else { "NOT all right" })
}
