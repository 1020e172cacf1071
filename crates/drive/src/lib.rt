// A link driven over a list of events in memory, for measuring it from C.
#![tactic(auto)]

ghost use Rattle.std.specs.Prelude.{◌≡◌, ◌+◌, ◌≤◌, length};
ghost use Rattle.reports.specs.Reporting.{listed};
ghost use Rattle.drive.specs.Drive.{event_from, mixed, mixed_report, mixed_reports, begins, driven_by, event_at, digest_of};

use events::Event;
use link::Link;
use reports::{Counts, Report, Reports};
use units::Micros;

// 256 to the second.
const TWO_BYTES: u64 = 256 * 256;

// 2 to the 32nd.
const BITS_32: u64 = TWO_BYTES * TWO_BYTES;

// A link, the counts that it is lent, and a digest of its reports so far.
#[derive(Clone, Copy)]
struct Driven {
    link: Link,
    counts: Counts,
    digest: u32,
}

// An event from three numbers: its value, side and kind (these two by their letters) in the lowest
// bytes of the first, its start, its end.
#[tactic(auto, unfolding(crate::specs::Drive::event_from))]
fn event_from(head: u64, start: u64, end: u64) -> Event
    ensures { result ≡ event_from head start end }
{
    Event {
        start: Micros(start),
        end: Micros(end),
        kind: events::kind_by((head / TWO_BYTES % 256) as u8),
        side: events::side_by((head / 256 % 256) as u8),
        value: (head % 256) as u8,
    }
}

// A digest with one number more.
#[tactic(auto, unfolding(crate::specs::Drive::mixed))]
fn mix(digest: u32, x: u64) -> u32
    ensures { result ≡ mixed digest x }
{
    ((digest as u64 * 31 + x % BITS_32) % BITS_32) as u32
}

// A digest with a report more.
#[tactic(auto, unfolding(crate::specs::Drive::mixed_report))]
fn mix_report(digest: u32, x: Report) -> u32
    ensures { result ≡ mixed_report digest x }
{
    let digest = mix(digest, x.number as u64);
    let digest = mix(digest, x.reason as u64);
    let digest = mix(digest, x.first);
    let digest = mix(digest, x.bytes);
    mix(digest, x.time.0)
}

// A digest with an event's reports more.
#[tactic(auto, unfolding(crate::specs::Drive::mixed_reports))]
fn mix_reports(digest: u32, rs: Reports) -> u32
    ensures { result ≡ mixed_reports digest (listed rs) }
{
    let mut mixed = digest;
    // Over all places, as the counts are: that takes fewer instructions than `as_slice`.
    for (i, x) in rs.places.iter().enumerate() {
        if i < rs.n as usize {
            mixed = mix_report(mixed, *x);
        }
    }
    mixed
}

// A fresh link.
#[tactic(auto, unfolding(crate::specs::Drive::begins))]
fn begin() -> Driven
    ensures { result ≡ begins }
{
    Driven {
        link: link::fresh(),
        counts: reports::no_counts(),
        digest: 0,
    }
}

// One event more. One that is refused changes nothing.
#[tactic(auto, unfolding(crate::specs::Drive::driven_by, crate::specs::Drive::mixed_reports, reports::specs::Reporting::listed))]
fn drive_on(d: Driven, e: Event) -> Driven
    ensures { result ≡ driven_by d e }
{
    match link::step(d.link, d.counts, e) {
        Ok(t) => Driven {
            link: t.answer.link,
            counts: t.counts,
            digest: mix_reports(d.digest, t.answer.reports),
        },
        Err(_) => d,
    }
}

// The event whose three numbers stand at an index.
#[tactic(auto, unfolding(crate::specs::Drive::event_at))]
fn event_at(s: &[u64], at: usize) -> Event
    requires { at + 3 ≤ length s.now }
    ensures { result ≡ event_at s.now at }
{
    event_from(s[at], s[at + 1], s[at + 2])
}

// Drives a fresh link over events of three numbers each, and answers the digest of all reports.
#[unsafe(no_mangle)]
#[tactic(auto, unfolding(crate::specs::Drive::digest_of))]
pub extern "C" fn wendrika_drive(events: &[u64]) -> u32
    ensures { result ≡ digest_of events.now }
{
    let mut d = begin();
    for i in 0..events.len() / 3 {
        d = drive_on(d, event_at(events, 3 * i));
    }
    d.digest
}
