// Reports: made in one place, appended in one place.
ghost use Rattle.std.specs.Prelude.{◌≡◌};
ghost use Rattle.reports.specs.Reporting.{no_report, no_reports, names_bytes, report_of, listed, appended, told, moved};

use crate::{PLACES, Report, Reports, Run};
use moves::Move;
use phases::Phase;
use units::Micros;

// No report.
fn no_report() -> Report
    ensures { result ≡ no_report }
{
    Report {
        first: 0,
        bytes: 0,
        time: Micros(0),
        number: 0,
        reason: base::reason::NONE,
    }
}

// No reports.
pub fn no_reports() -> Reports
    ensures { result ≡ no_reports }
{
    Reports {
        places: [no_report(); PLACES],
        n: 0,
    }
}

// Whether a report names bytes.
#[tactic(auto, unfolding(crate::specs::Reporting::names_bytes))]
fn names_bytes(number: u8) -> bool
    ensures { result ≡ names_bytes number }
{
    number <= base::report::OUTSIDE
}

// A report as the step stands.
#[tactic(auto, unfolding(crate::specs::Reporting::report_of))]
fn make_report(r: Run, number: u8, reason: u8) -> Report
    ensures { result ≡ report_of r number reason }
{
    let names = names_bytes(number);
    Report {
        first: base::either(names, r.named, r.heard),
        bytes: base::either(names, r.heard.saturating_sub(r.named), 0),
        time: r.time,
        number,
        reason,
    }
}

// A report after the others.
#[tactic(auto, unfolding(crate::specs::Reporting::appended))]
fn append(rs: Reports, r: Report) -> Reports
    ensures { result ≡ appended rs r }
{
    let at = rs.n as usize;
    if PLACES <= at {
        return rs;
    }
    let mut to = rs;
    to.places[at] = r;
    to.n += 1;
    to
}

impl Reports {
    // The reports: those in the first n places, and in all where n is more.
    #[tactic(auto, unfolding(crate::specs::Reporting::listed))]
    pub fn as_slice(&self) -> &[Report]
        ensures { result.now ≡ listed self.now }
    {
        &self.places[..PLACES.min(self.n as usize)]
    }
}

// A move with its report.
#[tactic(auto, unfolding(crate::specs::Reporting::told))]
fn tell(r: Run, m: Move) -> Run
    ensures { result ≡ told r m }
{
    Run {
        phase: m.phase,
        named: base::either(names_bytes(m.number), r.heard, r.named),
        reports: append(r.reports, make_report(r, m.number, m.reason)),
        ..r
    }
}

// A move.
#[tactic(auto, unfolding(crate::specs::Reporting::moved))]
pub fn make(r: Run, m: Move) -> Run
    ensures { result ≡ moved r m }
{
    if m.number == 0 {
        Run {
            phase: m.phase,
            ..r
        }
    } else {
        tell(r, m)
    }
}
