// A step of the link.
ghost use Rattle.std.specs.Prelude.{◌≡◌, Ok};
ghost use Rattle.base.specs.Reasons.{down_number};
ghost use Rattle.base.specs.Refusals.{no_of};
ghost use Rattle.link.specs.Answers.{answered_as, counted_as, stepped_as};
ghost use Rattle.link.specs.Handling.{fresh_link, passed, shut, hearing, byte_acts, begun, handled, mark_after, link_after};
ghost use Rattle.link.specs.Quick.{cut_by, approached, acts_by};
ghost use Rattle.link.specs.Stepping.{number_of, taken_by, answer_of, counts_after, step_of};

use crate::quick::{cuts, go_on, goes_on, is_calm, is_first_byte};
use crate::{Answer, Link, Stepped};
use base::Refusal;
use base::reason::Down;
use events::{Event, Kind};
use reports::{Counts, Run, make, no_reports};
use units::Micros;

// A fresh link.
#[tactic(auto, unfolding(crate::specs::Handling::fresh_link))]
pub fn fresh() -> Link
    ensures { result ≡ fresh_link }
{
    Link {
        clock: Micros(0),
        mark: Micros(0),
        taken: 0,
        heard: 0,
        named: 0,
        phase: phases::go_off(),
    }
}

// Time passes up to an event's start.
#[tactic(auto, unfolding(crate::specs::Handling::passed))]
fn pass(r: Run, mark: Micros, start: Micros) -> Run
    ensures { result ≡ passed r mark start }
{
    let gap = units::gap(mark, start);
    let r1 = make(r, moves::after_silence(r.phase, gap));
    let r2 = make(r1, moves::after_p2(r1.phase, gap));
    let r3 = make(r2, moves::after_p3(r2.phase, gap));
    make(r3, moves::after_window(r3.phase, mark, start))
}

// A byte ends what is held, or does not.
#[tactic(auto, unfolding(crate::specs::Quick::cut_by))]
fn cut_in(r: Run, e: Event) -> Run
    ensures { result ≡ cut_by r e }
{
    if cuts(r.phase, e) {
        make(r, moves::end_open(r.phase))
    } else {
        r
    }
}

// What comes before an event acts: time passes, and a byte may end what is held.
#[tactic(auto, unfolding(crate::specs::Quick::approached), using(crate::proofs::Ways::approached_calm))]
fn approach(r: Run, e: Event, mark: Micros) -> Run
    ensures { result ≡ approached r e mark }
{
    if is_calm(r.phase, mark, e.start) & !cuts(r.phase, e) {
        r
    } else {
        cut_in(pass(r, mark, e.start), e)
    }
}

// What is open is closed, and a connected link goes down.
#[tactic(auto, unfolding(crate::specs::Handling::shut))]
fn shut_all(r: Run, why: Down) -> Run
    ensures { result ≡ shut r (down_number why) }
{
    let r1 = make(r, moves::close_open(r.phase));
    make(r1, moves::leave(r1.phase, why.into()))
}

// A byte is heard.
fn hear(r: Run) -> Run
    ensures { result ≡ hearing r }
{
    Run {
        heard: base::count_sum(r.heard, 1),
        ..r
    }
}

// A byte acts.
fn hear_byte(r: Run, e: Event, mark: Micros) -> Run
    ensures { result ≡ byte_acts r e mark }
{
    let r1 = make(
        hear(r),
        moves::after_byte(r.phase, e.side, e.value, mark, e.start),
    );
    make(r1, moves::after_stop(r1.phase))
}

// An event acts.
#[tactic(auto, unfolding(base::specs::Reasons::down_number))]
fn act(r: Run, e: Event, mark: Micros) -> Run
    ensures { result ≡ acts_by e.kind r e mark }
{
    match e.kind {
        Kind::Address => {
            let r1 = shut_all(r, Down::Restarted);
            make(
                r1,
                moves::starting_slow(r1.phase.idle, e.value, mark, e.start),
            )
        }
        Kind::WakeUp => {
            let r2 = shut_all(r, Down::Restarted);
            make(
                r2,
                moves::starting_fast(r2.phase.idle, mark, e.start, e.end),
            )
        }
        Kind::Byte => hear_byte(r, e, mark),
        Kind::Drop => shut_all(r, Down::Dropped),
        Kind::Tick | Kind::Other => r,
    }
}

// A step begins.
#[tactic(auto, unfolding(crate::specs::Handling::begun))]
fn enter(l: Link, e: Event) -> Run
    ensures { result ≡ begun l e }
{
    Run {
        phase: l.phase,
        heard: l.heard,
        named: l.named,
        time: e.end,
        reports: no_reports(),
    }
}

// Time passes, a byte may end what is held, and the event acts.
#[tactic(auto, using(crate::proofs::Ways::acts_handled))]
fn handle(l: Link, e: Event) -> Run
    ensures { result ≡ handled l e }
{
    act(approach(enter(l, e), e, l.mark), e, l.mark)
}

// The mark after an event.
#[tactic(auto, unfolding(crate::specs::Handling::mark_after))]
fn mark_after(l: Link, e: Event) -> Micros
    ensures { result ≡ mark_after l e }
{
    if events::is_marking(e.kind) {
        e.end
    } else {
        l.mark
    }
}

// The link after an event.
#[tactic(auto, unfolding(crate::specs::Handling::link_after))]
fn finish(l: Link, e: Event, r: Run) -> Link
    ensures { result ≡ link_after l e r }
{
    Link {
        clock: e.end,
        mark: mark_after(l, e),
        taken: base::count_sum(l.taken, 1),
        heard: r.heard,
        named: r.named,
        phase: r.phase,
    }
}

// Whether an event is taken, or why it is refused.
#[tactic(auto, unfolding(crate::specs::Stepping::number_of))]
pub(crate) fn check(l: Link, c: Counts, e: Event) -> Result<(), Refusal>
    ensures { no_of result ≡ number_of l c e }
{
    events::refused(l.clock, reports::is_full(l.taken, c), e)
}

// An event that is taken.
#[tactic(auto, unfolding(crate::specs::Stepping::taken_by))]
fn take(l: Link, e: Event) -> Answer
    ensures { answered_as l (Ok result) ≡ taken_by l e }
{
    let r = handle(l, e);
    Answer {
        link: finish(l, e, r),
        reports: r.reports,
    }
}

// What an event is answered with.
#[tactic(auto, unfolding(crate::specs::Stepping::answer_of, base::specs::Refusals::no_of), using(crate::proofs::Answered::answer_refused, crate::proofs::Ways::on_step, crate::proofs::Ways::first_step))]
pub fn respond(l: Link, c: Counts, e: Event) -> Result<Answer, Refusal>
    ensures { answered_as l result ≡ answer_of l c e }
{
    check(l, c, e)?;
    let p = l.phase;
    Ok(if goes_on(l, e) {
        go_on(l, e, phases::hold(p, talk::grow(p.message, e.value)))
    } else if is_first_byte(l, e) {
        go_on(
            l,
            e,
            moves::first_frame_byte(p, e.side, e.value, units::gap(l.mark, e.start)),
        )
    } else {
        take(l, e)
    })
}

// The counts after an event, by its answer: a refusal of any kind leaves them.
#[tactic(auto, unfolding(crate::specs::Stepping::counts_after))]
pub fn counted<R: Drop>(c: Counts, a: Result<Answer, R>, e: Event) -> Counts
    ensures { result ≡ counts_after c (counted_as fresh_link a) e }
{
    match a {
        Ok(a) => reports::count_event(c, events::is_byte(e.kind), a.reports),
        Err(_) => c,
    }
}

// A step: the answer to an event, and the counts brought up to date.
#[tactic(auto, unfolding(crate::specs::Stepping::step_of), using(crate::proofs::Answered::step_refused))]
pub fn step(l: Link, c: Counts, e: Event) -> Result<Stepped, Refusal>
    ensures { stepped_as l c result ≡ step_of l c e }
{
    let answer = respond(l, c, e)?;
    Ok(Stepped {
        answer,
        counts: counted::<Refusal>(c, Ok(answer), e),
    })
}
