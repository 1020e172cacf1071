// The listing program: events from standard input, or from the file that its one argument names; the
// listing to standard output. It reads 64 KiB at a time and keeps nothing but the lister.
#![tactic(auto)]

ghost use Rattle.std.specs.Prelude.{◌<◌, ◌≤◌, IfOk, IfSome, OnOk, length, take};
ghost use Rattle.std.specs.Io.KnownBytes.{Appends, Consumes, prepend_known};
ghost use Rattle.listing.specs.Listing.{ending_of, listing_of};
ghost use Rattle.listing.specs.Parts.{answer_most, ending_most};
ghost use Rattle.list_events.specs.Sending.{HasRead, Listed, behind_head, said_by};

use failures::Failure;
use listing::Lister;
use std::env::{Env, FillError};
use std::io::{Read, Write};
use std::process::ExitCode;
use std::rt::Files;
use std::{fs, io, str};

// How many bytes are read at a time, and written.
const LARGE: usize = 65_536;

// The longest name of a file.
const NAME_MOST: usize = 4096;

// Writes all of a text.
fn send<W: Write>(to: &mut W, text: &[u8]) -> Result<(), Failure>
    ensures { OnOk result (Appends (W.contents to.old) (W.contents to.new) text.now) }
{
    to.write_all(text).map_err(Failure::Output)
}

// Reads once, and answers how many bytes came.
fn read_some<R: Read>(input: &mut R, buf: &mut [u8]) -> Result<usize, Failure>
    ensures gave { IfOk result (λ n. Consumes (R.remaining input.old) (R.remaining input.new) (take n buf.new)) }
    ensures read { 0 < length buf.old → IfOk result (λ n. HasRead (R.remaining input.new) n buf.new) }
{
    input.read(buf).map_err(Failure::Input)
}

// Lists a part of the input, one buffer after another: the lister after it, where all that is written
// goes out.
fn list<W: Write>(to: &mut W, l: Lister, s: &[u8], out: &mut [u8]) -> Result<Lister, Failure>
    requires { answer_most ≤ length out.old }
    ensures listed { IfOk result (Listed l s.now) }
    ensures sent { OnOk result (Appends (W.contents to.old) (W.contents to.new) (said_by l s.now)) }
{
    let mut lister = l;
    let mut at = 0;
    // By a place: with a rest of the slice that each turn cuts short the proof did not close.
    while at < s.len() {
        let part = listing::list_part(lister, &s[at..], out);
        send(to, &out[..part.put])?;
        lister = part.lister;
        at += part.at;
    }
    Ok(lister)
}

// The input has ended. (The buffer has room for what is then written.)
fn finish<W: Write>(to: &mut W, l: Lister, out: &mut [u8]) -> Result<(), Failure>
    requires { ending_most ≤ length out.old }
    ensures { OnOk result (Appends (W.contents to.old) (W.contents to.new) (ending_of l)) }
{
    let n = listing::finish(l, out);
    send(to, &out[..n])
}

// Lists the input from a first read on, which gave `first` bytes: where nothing fails, all of the listing
// behind its header goes out. A proved loop has to end, and nothing says that an input does: so it has a
// number of turns that no run uses up.
fn list_all<R: Read, W: Write>(
    input: &mut R,
    to: &mut W,
    first: usize,
    buf: &mut [u8],
    out: &mut [u8],
) -> Result<(), Failure>
    requires { ending_most ≤ length out.old }
    ensures { HasRead (R.remaining input.old) first buf.old → OnOk result (IfSome (prepend_known (take first buf.old) (R.remaining input.old))
        (λ bytes. Appends (W.contents to.old) (W.contents to.new) (behind_head bytes))) }
{
    let mut l = listing::begin();
    let mut got = first;
    for _ in 0..u64::MAX {
        let n = got.min(buf.len());
        if n == 0 {
            return finish(to, l, out);
        }
        l = list(to, l, &buf[..n], out)?;
        got = read_some(input, buf)?;
    }
    Err(Failure::Input(io::Error::from(io::ErrorKind::TimedOut)))
}

// Lists an input that is open: where nothing fails, the listing of all its bytes goes out, however they
// are cut into reads. Where not even a first read is possible there is no listing.
fn list_open<R: Read, W: Write>(
    input: &mut R,
    to: &mut W,
    buf: &mut [u8],
    out: &mut [u8],
) -> Result<(), Failure>
    requires { ending_most ≤ length out.old }
    ensures { 0 < length buf.old → OnOk result (IfSome (R.remaining input.old)
        (λ bytes. Appends (W.contents to.old) (W.contents to.new) (listing_of bytes))) }
{
    let first = read_some(input, buf)?;
    let n = text::put_head(out, 0);
    send(to, &out[..n])?;
    list_all(input, to, first, buf, out)
}

// Whether the command line has an argument of this number. (The other program has these lines for itself: std says nothing of a
// command line, so a public function could promise nothing.)
fn has_argument(rt: &impl Env, i: usize) -> bool {
    !matches!(rt.arg(i, &mut []), Err(FillError::NotPresent))
}

// The file that the one argument names; where there is none, says why.
fn open_named<R: Files + Env + Eprint + AllocGlobal>(rt: &R) -> Option<R::File> {
    let mut path = [0u8; NAME_MOST];
    let Ok(n) = rt.arg(1, &mut path) else {
        let _ = eprintln!(rt; "list_events: the file's name: File name too long");
        return None;
    };
    let Ok(name) = str::from_utf8(&path[..n]) else {
        let _ = eprintln!(rt; "list_events: the file's name: it is not UTF-8");
        return None;
    };
    match fs::open(rt, name) {
        Ok(file) => Some(file),
        Err(error) => {
            failures::say(rt, name, &error);
            None
        }
    }
}

fn main(rt: HostRuntime) -> ExitCode {
    if has_argument(&rt, 2) {
        let _ = eprintln!(rt; "usage: list_events [FILE]");
        return ExitCode::FAILURE;
    }
    let mut to = rt.stdout();
    let mut buf = [0u8; LARGE];
    let mut out = [0u8; LARGE];
    if !has_argument(&rt, 1) {
        let outcome = list_open(&mut rt.stdin(), &mut to, &mut buf, &mut out);
        return failures::end(&rt, "list_events", outcome);
    }
    match open_named(&rt) {
        Some(mut file) => {
            let outcome = list_open(&mut file, &mut to, &mut buf, &mut out);
            failures::end(&rt, "list_events", outcome)
        }
        None => ExitCode::FAILURE,
    }
}
