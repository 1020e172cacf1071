// The counts that the host lends, brought up to date where they stand.
#![tactic(auto)]

ghost use Rattle.std.specs.Prelude.{◌≡◌};
ghost use Rattle.link.specs.Answers.{answered_as, stepped_as};
ghost use Rattle.link.specs.Stepping.{step_of};
ghost use Rattle.counts.specs.Lent.{Steps};

use base::Refusal;
use events::Event;
use link::{Answer, Link, Stepped};
use reports::Counts;

// A step of a link with the counts that the host lends: the answer to the event, and the counts
// brought up to date. A refusal leaves them as they are.
#[tactic(auto, unfolding(link::specs::Stepping::step_of), using(link::proofs::Answered::step_counts, link::proofs::Answered::step_kept))]
pub fn step(counts: &mut Counts, l: Link, e: Event) -> Result<Answer, Refusal>
    ensures { Steps l counts.old e (answered_as l result) counts.new }
{
    // What is refused is not counted at all: over the list of `bench/step` an event takes 208
    // instructions, its caller's among them, in place of 317 where `counted` is asked of an `Err` too.
    match link::respond(l, *counts, e) {
        Ok(answer) => {
            *counts = link::counted::<Refusal>(*counts, Ok(answer), e);
            Ok(answer)
        }
        Err(why) => Err(why),
    }
}

// A step with counts of the caller's own: they are lent for the step, and handed back with its
// answer.
#[tactic(auto, unfolding(link::specs::Stepping::step_of), using(link::proofs::Answered::step_refused))]
pub fn step_owned(counts: Counts, l: Link, e: Event) -> Result<Stepped, Refusal>
    ensures { stepped_as l counts result ≡ step_of l counts e }
{
    let mut lent = counts;
    let answer = step(&mut lent, l, e)?;
    Ok(Stepped {
        answer,
        counts: lent,
    })
}
