// The questions. Each reads its words one after another, asks the function that it is about, and
// writes the answer; `None` where a word is not there, and so there is no question. One more question
// is a function like these, and two lines of `ask`.
use crate::lent;
use base::Refusal;
use keys::Pair;
use timing::{Codes, Limit, Windows};
use units::Micros;
use words::{LINE_FEED, SPACE, Word};

// The most bytes of a buffer that a question lends.
const ROOM_MOST: u64 = 20_000;

// The answer to what is no question.
pub(crate) fn put_unknown(out: &mut [u8], at: usize) -> usize {
    words::put_text(out, at, b"?\n")
}

// A number alone.
fn put_no(out: &mut [u8], at: usize, no: u8) -> usize {
    words::put_number(out, at, no as u64, LINE_FEED)
}

// The 0 in front of what was asked for.
fn put_taken(out: &mut [u8], at: usize) -> usize {
    words::put_number(out, at, base::TAKEN as u64, SPACE)
}

// The line ends here, or is no question.
fn end(s: &[u8], at: usize) -> Option<()> {
    words::is_end(s, at).then_some(())
}

// The key bytes.
fn read_pair(s: &[u8], from: usize) -> Option<Word<Pair>> {
    let kb1 = words::read_byte(s, from)?;
    let kb2 = words::read_byte(s, kb1.to)?;
    Some(Word {
        value: Pair {
            kb1: kb1.value,
            kb2: kb2.value,
        },
        to: kb2.to,
    })
}

// good KB1 KB2
fn ask_good(s: &[u8], from: usize, out: &mut [u8], at: usize) -> Option<usize> {
    let pair = read_pair(s, from)?;
    end(s, pair.to)?;
    let no = if pair.value.is_good() {
        base::TAKEN
    } else {
        Refusal::BadKeys.into()
    };
    Some(put_no(out, at, no))
}

// Builds into a buffer that was filled, and answers the frame.
fn put_built(plan: frame::Plan, data: &[u8], room: &mut [u8], out: &mut [u8], at: usize) -> usize {
    lent::fill(room);
    let built = frame::build(plan, data, room);
    if !lent::is_untouched(room, built.unwrap_or(0)) {
        return words::put_text(out, at, b"broken\n");
    }
    match built {
        Ok(n) => {
            let x = put_taken(out, at);
            let y = words::put_number(out, x, n as u64, SPACE);
            words::put_bytes(out, y, &room[..n], LINE_FEED)
        }
        Err(why) => put_no(out, at, why.into()),
    }
}

// The choice of the length's place, the key bytes, form and addresses of a frame.
fn read_plan(s: &[u8], from: usize) -> Option<Word<frame::Plan>> {
    let choice = words::read_number(s, from, 255)?;
    let pair = read_pair(s, choice.to)?;
    let form = words::read_number(s, pair.to, 255)?;
    let target = words::read_byte(s, form.to)?;
    let source = words::read_byte(s, target.to)?;
    Some(Word {
        value: frame::Plan {
            choice: choice.value as u8,
            pair: pair.value,
            form: form.value as u8,
            target: target.value,
            source: source.value,
        },
        to: source.to,
    })
}

// build CHOICE KB1 KB2 FORM TGT SRC ROOM HEX
fn ask_build(s: &[u8], from: usize, out: &mut [u8], at: usize) -> Option<usize> {
    let mut data = lent::data();
    let mut room = lent::room();
    let plan = read_plan(s, from)?;
    let size = words::read_number(s, plan.to, ROOM_MOST)?;
    let bytes = words::read_bytes(s, size.to, &mut data)?;
    end(s, bytes.to)?;
    let room = &mut room[..size.value as usize];
    Some(put_built(plan.value, &data[..bytes.value], room, out, at))
}

// The form and the addresses of a frame.
fn put_form(out: &mut [u8], at: usize, form: u8, target: u8, source: u8) -> usize {
    let a = put_taken(out, at);
    let b = words::put_number(out, a, form as u64, SPACE);
    let c = words::put_byte(out, b, target, SPACE);
    words::put_byte(out, c, source, SPACE)
}

// Reads a frame, and answers what it carries.
fn put_reading(pair: Pair, s: &[u8], out: &mut [u8], at: usize) -> usize {
    match frame::read(pair, s) {
        Ok(r) => {
            let a = put_form(out, at, frame::number_of(r.form), r.target, r.source);
            let b = words::put_number(out, a, r.start as u64, SPACE);
            let c = words::put_number(out, b, r.len as u64, SPACE);
            words::put_bytes(out, c, frame::contents(pair, s), LINE_FEED)
        }
        Err(why) => put_no(out, at, why.into()),
    }
}

// read KB1 KB2 HEX
fn ask_read(s: &[u8], from: usize, out: &mut [u8], at: usize) -> Option<usize> {
    let mut data = lent::bytes();
    let pair = read_pair(s, from)?;
    let bytes = words::read_bytes(s, pair.to, &mut data)?;
    end(s, bytes.to)?;
    Some(put_reading(pair.value, &data[..bytes.value], out, at))
}

// The end of a window in microseconds, or inf.
fn put_limit(out: &mut [u8], at: usize, l: Limit) -> usize {
    if timing::is_unlimited(l) {
        return words::put_text(out, at, b"inf ");
    }
    words::put_number(out, at, timing::time_of(l).0, SPACE)
}

// Five windows.
fn put_windows(out: &mut [u8], at: usize, w: Windows) -> usize {
    let a = put_taken(out, at);
    let b = words::put_number(out, a, w.p2min.0, SPACE);
    let c = put_limit(out, b, w.p2max);
    let d = words::put_number(out, c, w.p3min.0, SPACE);
    let e = put_limit(out, d, w.p3max);
    words::put_number(out, e, w.p4min.0, LINE_FEED)
}

// Five bytes as codes.
fn read_codes(s: &[u8], from: usize) -> Option<Word<Codes>> {
    let p2min = words::read_byte(s, from)?;
    let p2max = words::read_byte(s, p2min.to)?;
    let p3min = words::read_byte(s, p2max.to)?;
    let p3max = words::read_byte(s, p3min.to)?;
    let p4min = words::read_byte(s, p3max.to)?;
    Some(Word {
        value: Codes {
            p2min: p2min.value,
            p2max: p2max.value,
            p3min: p3min.value,
            p3max: p3max.value,
            p4min: p4min.value,
        },
        to: p4min.to,
    })
}

// codes HH HH HH HH HH
fn ask_codes(s: &[u8], from: usize, out: &mut [u8], at: usize) -> Option<usize> {
    let codes = read_codes(s, from)?;
    end(s, codes.to)?;
    Some(match timing::windows_of(codes.value) {
        Ok(windows) => put_windows(out, at, windows),
        Err(why) => put_no(out, at, why.into()),
    })
}

// The end of a window: a number, or inf. The greatest number is a time too, and no code gives it; in a
// `Limit` it would be no limit, so that the number before it, which no code gives either, stands in.
fn read_limit(s: &[u8], from: usize) -> Option<Word<Limit>> {
    if let Some(to) = words::read_word(s, from, b"inf") {
        return Some(Word {
            value: timing::no_limit(),
            to,
        });
    }
    let n = words::read_number(s, from, u64::MAX)?;
    Some(Word {
        value: timing::until(Micros(n.value.min(u64::MAX - 1))),
        to: n.to,
    })
}

// Five windows.
fn read_windows(s: &[u8], from: usize) -> Option<Word<Windows>> {
    let p2min = words::read_number(s, from, u64::MAX)?;
    let p2max = read_limit(s, p2min.to)?;
    let p3min = words::read_number(s, p2max.to, u64::MAX)?;
    let p3max = read_limit(s, p3min.to)?;
    let p4min = words::read_number(s, p3max.to, u64::MAX)?;
    Some(Word {
        value: Windows {
            p2min: Micros(p2min.value),
            p2max: p2max.value,
            p3min: Micros(p3min.value),
            p3max: p3max.value,
            p4min: Micros(p4min.value),
        },
        to: p4min.to,
    })
}

// Five codes.
fn put_codes(out: &mut [u8], at: usize, c: Codes) -> usize {
    let x = put_taken(out, at);
    let a = words::put_byte(out, x, c.p2min, SPACE);
    let b = words::put_byte(out, a, c.p2max, SPACE);
    let d = words::put_byte(out, b, c.p3min, SPACE);
    let e = words::put_byte(out, d, c.p3max, SPACE);
    words::put_byte(out, e, c.p4min, LINE_FEED)
}

// windows P2MIN P2MAX P3MIN P3MAX P4MIN
fn ask_windows(s: &[u8], from: usize, out: &mut [u8], at: usize) -> Option<usize> {
    let windows = read_windows(s, from)?;
    end(s, windows.to)?;
    Some(match timing::codes_of(windows.value) {
        Ok(codes) => put_codes(out, at, codes),
        Err(why) => put_no(out, at, why.into()),
    })
}

// set KB1 KB2
fn ask_set(s: &[u8], from: usize, out: &mut [u8], at: usize) -> Option<usize> {
    let pair = read_pair(s, from)?;
    end(s, pair.to)?;
    if !pair.value.is_good() {
        return Some(put_no(out, at, Refusal::BadKeys.into()));
    }
    Some(put_windows(out, at, timing::set_of(pair.value)))
}

// minus HH
fn ask_minus(s: &[u8], from: usize, out: &mut [u8], at: usize) -> Option<usize> {
    let x = words::read_byte(s, from)?;
    end(s, x.to)?;
    let a = put_taken(out, at);
    Some(words::put_byte(out, a, starts::inverse(x.value), LINE_FEED))
}

// The answer to a question, by its first word.
fn ask(s: &[u8], out: &mut [u8], at: usize) -> Option<usize> {
    if let Some(from) = words::read_first(s, b"good") {
        ask_good(s, from, out, at)
    } else if let Some(from) = words::read_first(s, b"build") {
        ask_build(s, from, out, at)
    } else if let Some(from) = words::read_first(s, b"read") {
        ask_read(s, from, out, at)
    } else if let Some(from) = words::read_first(s, b"codes") {
        ask_codes(s, from, out, at)
    } else if let Some(from) = words::read_first(s, b"windows") {
        ask_windows(s, from, out, at)
    } else if let Some(from) = words::read_first(s, b"set") {
        ask_set(s, from, out, at)
    } else if let Some(from) = words::read_first(s, b"minus") {
        ask_minus(s, from, out, at)
    } else {
        None
    }
}

// The answer to a line.
pub(crate) fn answer(s: &[u8], out: &mut [u8], at: usize) -> usize {
    match ask(s, out, at) {
        Some(to) => to,
        None => put_unknown(out, at),
    }
}
