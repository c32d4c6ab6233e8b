// The result of a run: a file run to its end under a ceiling.
ghost use Rattle.std.specs.Prelude.{◌≡◌};
ghost use Rattle.course.specs.Whole.{course};
ghost use Rattle.run.specs.Outcomes.{refusal_of, place_of, outcome_of};

use crate::{Outcome, current};
use course::{Phase, Run};
use tally::Tally;

// The number that a file is refused with; 0: none.
#[tactic(auto, unfolding(crate::specs::Outcomes::refusal_of))]
fn refusal_of(phase: Phase) -> u8
    ensures { result ≡ refusal_of phase }
{
    match phase {
        Phase::Refused { number, .. } => number,
        _ => 0,
    }
}

// The place that is told beside that number; 0: none.
#[tactic(auto, unfolding(crate::specs::Outcomes::place_of))]
fn place_of(phase: Phase) -> usize
    ensures { result ≡ place_of phase }
{
    match phase {
        Phase::Refused { place, .. } => place,
        _ => 0,
    }
}

// The run when all is said.
pub(crate) fn finish(run: Run, schedule: &[u8], ceiling: u64) -> Run
    ensures { result ≡ (course ceiling schedule.now run).end }
{
    let mut here = run.onward(schedule, ceiling);
    while !here.over {
        current::say(&mut here, schedule);
        here = here.onward(schedule, ceiling);
    }
    here
}

// The numbers of a run where it stands.
#[tactic(auto, unfolding(crate::specs::Outcomes::outcome_of, course::specs::Standing::locks_of))]
pub(crate) fn numbers(run: Run) -> Outcome
    ensures { result ≡ outcome_of run }
{
    let locks = run.reached.state.plan.locks;
    let Tally {
        busy,
        grants,
        failed,
    } = run.reached.tally;
    Outcome {
        refusal: refusal_of(run.phase),
        place: place_of(run.phase),
        cut: current::is_cut(run.phase),
        steps: run.reached.steps,
        busy,
        grants: tally::sum_of(grants, locks),
        failed: tally::sum_of(failed, locks),
    }
}
