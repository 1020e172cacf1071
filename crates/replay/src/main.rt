// Hears event lists from standard input and lists their reports, as `tests/link_reference.py` works
// them out of the rules. An event is a record of 20 bytes: the letters of its kind and side, its
// value, a zero, and start and end in 64 bits each, lowest byte first. A record whose kind is 0 ends
// a list: its counts are printed, and the next link is a fresh one.
#![tactic(auto)]

use events::Event;
use link::Link;
use reports::{Counts, Reports};
use std::io;
use std::io::Read;
use units::Micros;

// A link, with the counts that it is lent. (`bench_link` has the same: a crate for two fields would be longer.)
#[derive(Clone, Copy)]
struct Session {
    link: Link,
    counts: Counts,
}

// A record: an event, or the end of a list.
#[derive(Clone, Copy)]
enum Record {
    Event(Event),
    End,
}

// The most records that are read.
const MOST: u64 = 10_000_000;

// The time of eight bytes, lowest first.
fn time_of(bytes: [u8; 8]) -> Micros {
    Micros(u64::from_le_bytes(bytes))
}

// What a record says.
fn record_of(s: [u8; 20]) -> Record {
    if s[0] == 0 {
        return Record::End;
    }
    Record::Event(Event {
        start: time_of([s[4], s[5], s[6], s[7], s[8], s[9], s[10], s[11]]),
        end: time_of([s[12], s[13], s[14], s[15], s[16], s[17], s[18], s[19]]),
        kind: events::kind_by(s[0]),
        side: events::side_by(s[1]),
        value: s[2],
    })
}

// The next record of the input: none where the input ends before its last byte, or can't be read.
fn next_record(input: &mut impl Read) -> Option<Record> {
    let mut s = [0u8; 20];
    input.read_exact(&mut s).ok()?;
    Some(record_of(s))
}

fn print_reports(rt: &impl Print, rs: Reports) -> io::Result<()> {
    for x in rs.as_slice() {
        println!(rt;
            "{} {} {} {} {}",
            x.number, x.reason, x.first, x.bytes, x.time.0
        )?;
    }
    Ok(())
}

impl Session {
    fn fresh() -> Session {
        Session {
            link: link::fresh(),
            counts: reports::no_counts(),
        }
    }

    // One event is heard, with the counts lent for it, and its answer is printed.
    fn hear(self, rt: &impl Print, e: Event) -> io::Result<Session> {
        match counts::step_owned(self.counts, self.link, e) {
            Ok(stepped) => {
                print_reports(rt, stepped.answer.reports)?;
                Ok(Session {
                    link: stepped.answer.link,
                    counts: stepped.counts,
                })
            }
            Err(why) => {
                println!(rt; "refused {}", u8::from(why))?;
                Ok(self)
            }
        }
    }

    // The seven counts, and the bytes held.
    fn print_end(self, rt: &impl Print) -> io::Result<()> {
        let c = self.counts;
        let held = self.link.heard.saturating_sub(self.link.named);
        println!(rt;
            "end {} {} {} {} {} {} {} {held}",
            c.heard, c.framed, c.damaged, c.started, c.outside, c.frames, c.damages
        )
    }
}

// A list begins: its head is printed.
fn begin(rt: &impl Print) -> io::Result<Session> {
    println!(rt; "report reason first bytes time")?;
    Ok(Session::fresh())
}

// One record: the session of the list that goes on after it, if any does.
fn take(rt: &impl Print, session: Option<Session>, record: Record) -> io::Result<Option<Session>> {
    let session = match session {
        Some(session) => session,
        None => begin(rt)?,
    };
    match record {
        Record::Event(e) => Ok(Some(session.hear(rt, e)?)),
        Record::End => {
            session.print_end(rt)?;
            Ok(None)
        }
    }
}

fn main(rt: HostRuntime) -> io::Result<()> {
    let mut input = rt.stdin();
    let mut session = None;
    for _ in 0..MOST {
        let Some(record) = next_record(&mut input) else {
            return Ok(());
        };
        session = take(&rt, session, record)?;
    }
    Ok(())
}
