// Runs the values of the link on the bench, and prints their reports as a listing has them: number,
// reason, first byte, bytes, time. The file `stdout` beside src/ has what should come.
#![tactic(auto)]

use events::{Event, Kind, Side};
use link::Link;
use reports::{Counts, Reports};
use std::io;
use units::Micros;

// The bytes of the example: the request, the reply, and the tester's first frame.
const REQUEST: [u8; 5] = [0x81, 0x11, 0xF1, 0x81, 0x04];

const REPLY: [u8; 7] = [0x83, 0xF1, 0x11, 0xC1, 0xEF, 0x8F, 0xC4];

const FRAME: [u8; 3] = [0x01, 0x3E, 0x3F];

// An event of no side and no value: a byte's are written beside it.
fn event(kind: Kind, start: u64, end: u64) -> Event {
    Event {
        start: Micros(start),
        end: Micros(end),
        kind,
        side: Side::Nobody,
        value: 0,
    }
}

// A byte of a side, which takes 960 microseconds.
fn byte(side: Side, value: u8, start: u64) -> Event {
    Event {
        side,
        value,
        ..event(Kind::Byte, start, start.saturating_add(960))
    }
}

fn print_reports(rt: &impl Print, rs: Reports) -> io::Result<()> {
    for x in rs.as_slice() {
        println!(rt;
            "  {} {} {} {} {}",
            x.number, x.reason, x.first, x.bytes, x.time.0
        )?;
    }
    Ok(())
}

// A link, with the counts that it is lent. (`replay` has the same: a crate for two fields would be longer.)
#[derive(Clone, Copy)]
struct Session {
    link: Link,
    counts: Counts,
}

impl Session {
    fn fresh() -> Session {
        Session {
            link: link::fresh(),
            counts: reports::no_counts(),
        }
    }

    // One event more. One that is refused has no reports.
    fn hear(&mut self, rt: &impl Print, e: Event) -> io::Result<()> {
        let Ok(stepped) = link::step(self.link, self.counts, e) else {
            return Ok(());
        };
        *self = Session {
            link: stepped.answer.link,
            counts: stepped.counts,
        };
        print_reports(rt, stepped.answer.reports)
    }

    // Bytes of a side: the start of the first, and the gap between.
    fn hear_all(
        &mut self,
        rt: &impl Print,
        side: Side,
        bytes: &[u8],
        at: u64,
        gap: u64,
    ) -> io::Result<()> {
        let mut start = at;
        for &value in bytes {
            let e = byte(side, value, start);
            self.hear(rt, e)?;
            start = e.end.0.saturating_add(gap);
        }
        Ok(())
    }

    // The seven counts, and the bytes held.
    fn print_end(&self, rt: &impl Print) -> io::Result<()> {
        let c = self.counts;
        let held = self.link.heard.saturating_sub(self.link.named);
        println!(rt;
            "counts {} {} {} {} {} {} {} {held}",
            c.heard, c.framed, c.damaged, c.started, c.outside, c.frames, c.damages
        )
    }
}

// A fresh link and an address at a time, which takes two seconds.
fn address(rt: &impl Print, start: u64) -> io::Result<Session> {
    println!(rt; "address at {start}")?;
    let mut session = Session::fresh();
    let e = Event {
        value: 0x33,
        ..event(Kind::Address, start, start.saturating_add(2_000_000))
    };
    session.hear(rt, e)?;
    Ok(session)
}

// The unit's 55 so long after an address that was taken.
fn sync(rt: &impl Print, gap: u64) -> io::Result<()> {
    let mut session = address(rt, 300_000)?;
    println!(rt; "sync after {gap}")?;
    session.hear(rt, byte(Side::Unit, 0x55, gap.saturating_add(2_300_000)))
}

fn example(rt: &impl Print) -> io::Result<()> {
    println!(rt; "the example of the listing")?;
    let mut session = Session::fresh();
    session.hear(rt, event(Kind::WakeUp, 300_000, 325_000))?;
    session.hear_all(rt, Side::Tester, &REQUEST, 350_000, 5_000)?;
    session.hear_all(rt, Side::Unit, &REPLY, 404_800, 0)?;
    session.hear_all(rt, Side::Tester, &FRAME, 466_520, 5_000)?;
    session.hear(rt, event(Kind::Tick, 529_401, 529_401))?;
    session.print_end(rt)
}

fn main(rt: HostRuntime) -> io::Result<()> {
    for start in [299_999, 300_000] {
        address(&rt, start)?;
    }
    for gap in [59_999, 60_000, 300_000, 300_001] {
        sync(&rt, gap)?;
    }
    example(&rt)
}
