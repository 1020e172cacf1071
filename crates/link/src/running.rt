// A byte that goes on with the message held, for a caller that takes many and needs no answer made.
// Its step is the one that the rules give: `proofs/Ways.antt`.
ghost use Rattle.std.specs.Prelude.{◌≡◌};
ghost use Rattle.link.specs.Running.{runs_on, ran_on};

use crate::Link;
use crate::quick::goes_on;
use crate::stepping::check;
use events::Event;
use reports::Counts;

// Whether an event is taken and goes on with the message held: no report, and no more than the
// message grows.
#[tactic(auto, unfolding(crate::specs::Running::runs_on), using(crate::proofs::Answered::check_ok))]
pub fn runs_on(l: Link, c: Counts, e: Event) -> bool
    ensures { result ≡ runs_on l c e }
{
    check(l, c, e).is_ok() && goes_on(l, e)
}

// The link after such an event.
#[tactic(auto, unfolding(crate::specs::Running::ran_on))]
pub fn run_on(l: Link, e: Event) -> Link
    ensures { result ≡ ran_on l e }
{
    Link {
        clock: e.end,
        mark: e.end,
        taken: base::count_sum(l.taken, 1),
        heard: base::count_sum(l.heard, 1),
        phase: phases::hold(l.phase, talk::grow(l.phase.message, e.value)),
        ..l
    }
}
