// Answers questions: a question a line from standard input, or one question as the words of the
// command line; an answer a line to standard output. It keeps no more than a line, 64 KiB of what it
// has read and 64 KiB of what it will write.
#![tactic(auto)]

use failures::Failure;
use std::env::{Env, FillError};
use std::io;
use std::io::{Read, Write};
use std::process::ExitCode;

mod lent;
mod questions;

// How many bytes are read at a time, and the most that wait to be written.
const LARGE: usize = 65_536;

// The most bytes of an answer, its line feed among them: a question that has longer ones raises it.
const ANSWER_MOST: usize = 600;

// Where more bytes of answers wait, there might be no room for one more.
const FULL: usize = LARGE - ANSWER_MOST;

// The line at hand: the room for its bytes, and how many of them were heard; one more than it may have,
// where it is too long.
#[derive(Drop)]
struct Line<'a> {
    room: &'a mut [u8],
    heard: usize,
}

impl Line<'_> {
    // One byte more.
    fn keep(&mut self, b: u8) {
        if self.heard < self.room.len() {
            self.room[self.heard] = b;
            self.heard += 1;
        } else {
            self.heard = self.room.len() + 1;
        }
    }

    // One argument more of the command line.
    fn keep_word(&mut self, rt: &impl Env, i: usize) {
        if self.heard <= self.room.len() {
            self.heard = match rt.arg(i, &mut self.room[self.heard..]) {
                Ok(n) => self.heard + n,
                Err(_) => self.room.len() + 1,
            };
        }
    }

    // The answer to it.
    fn answer(&self, out: &mut [u8], at: usize) -> usize {
        match self.room.get(..self.heard) {
            Some(s) => questions::answer(s, out, at),
            None => questions::put_unknown(out, at),
        }
    }
}

// Writes the front of a buffer.
fn send(to: &mut impl Write, out: &[u8], waiting: usize) -> io::Result<()> {
    to.write_all(&out[..waiting.min(out.len())])
}

// One byte more of the input: of a line, or the end of one, which is answered. Says how many bytes of
// answers wait then: they go out where there might be no room for one more.
fn hear(
    to: &mut impl Write,
    b: u8,
    line: &mut Line,
    out: &mut [u8],
    waiting: usize,
) -> io::Result<usize> {
    if b != words::LINE_FEED {
        line.keep(b);
        return Ok(waiting);
    }
    let n = line.answer(out, waiting);
    line.heard = 0;
    if n <= FULL {
        return Ok(n);
    }
    send(to, out, n)?;
    Ok(0)
}

// A part of the input, byte after byte, as long as answers go out; all that wait go out behind it.
fn hear_part(to: &mut impl Write, part: &[u8], line: &mut Line, out: &mut [u8]) -> io::Result<()> {
    let mut waiting = 0;
    for b in part {
        waiting = hear(to, *b, line, out, waiting)?;
    }
    send(to, out, waiting)
}

// The input has ended: what is held of a last line is a line too.
fn finish(to: &mut impl Write, line: &Line, out: &mut [u8]) -> io::Result<()> {
    if line.heard == 0 {
        return Ok(());
    }
    let n = line.answer(out, 0);
    send(to, out, n)
}

// Answers one read after another, each before the next. A proved loop has to end, and nothing says that
// an input does: so it has a number of turns that no run uses up.
fn ask_all(
    input: &mut impl Read,
    to: &mut impl Write,
    buf: &mut [u8],
    line: &mut Line,
    out: &mut [u8],
) -> Result<(), Failure> {
    for _ in 0..u64::MAX {
        let n = input.read(buf).map_err(Failure::Input)?;
        if n == 0 {
            return finish(to, line, out).map_err(Failure::Output);
        }
        hear_part(to, &buf[..n], line, out).map_err(Failure::Output)?;
    }
    Ok(())
}

// Whether the command line has an argument of this number. (The other program has these lines for itself: std says nothing of a
// command line, so a public function could promise nothing.)
fn has_argument(rt: &impl Env, i: usize) -> bool {
    !matches!(rt.arg(i, &mut []), Err(FillError::NotPresent))
}

// The arguments as a line, with a space between two.
fn gather(rt: &impl Env, line: &mut Line) {
    line.keep_word(rt, 1);
    for i in 2..usize::MAX {
        if !has_argument(rt, i) {
            return;
        }
        line.keep(words::SPACE);
        line.keep_word(rt, i);
    }
}

// Answers the question of the command line.
fn ask_words(
    rt: &impl Env,
    to: &mut impl Write,
    line: &mut Line,
    out: &mut [u8],
) -> Result<(), Failure> {
    gather(rt, line);
    let n = line.answer(out, 0);
    send(to, out, n).map_err(Failure::Output)
}

fn main(rt: HostRuntime) -> ExitCode {
    let mut room = lent::line();
    let mut line = Line {
        room: &mut room,
        heard: 0,
    };
    let mut out = [0u8; LARGE];
    let mut to = rt.stdout();
    let outcome = if has_argument(&rt, 1) {
        ask_words(&rt, &mut to, &mut line, &mut out)
    } else {
        let mut buf = [0u8; LARGE];
        ask_all(&mut rt.stdin(), &mut to, &mut buf, &mut line, &mut out)
    };
    failures::end(&rt, "ask", outcome)
}
