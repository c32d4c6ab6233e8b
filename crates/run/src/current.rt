// What a run says where it stands; it goes past what is said.
ghost use Rattle.std.specs.Prelude.{◌≡◌, ◌+◌, ◌<◌, get_or};
ghost use Rattle.acts.specs.Actions.{action_answer_number};
ghost use Rattle.course.specs.declared.Phase.TheVariants.{Items};
ghost use Rattle.course.specs.Standing.{past, action_item, all_said};
ghost use Rattle.course.specs.Wording.{is_cut, event_line, action_refusal, action_line, lock_line, last_line};
ghost use Rattle.course.specs.Ready.{answer_here};
ghost use Rattle.run.specs.Current.{said, saying, answer_saying, end_saying, saying_in, saying_now};

use acts::{Action, ActionRefusal};
use course::{Phase, Run};
use items::Item;
use wording::Line;

// Whether the run was cut at the ceiling.
#[tactic(auto, unfolding(course::specs::Wording::is_cut))]
pub(crate) fn is_cut(phase: Phase) -> bool
    ensures { result ≡ is_cut phase }
{
    matches!(phase, Phase::Cut)
}

// The count of a lock; 0 of a lock that has no place.
fn count_of(counts: &[u64], lock: u8) -> u64
    ensures { result ≡ get_or counts.now lock 0 }
{
    counts.get(usize::from(lock)).copied().unwrap_or(0)
}

// On to the next node, or the next lock.
#[tactic(auto, unfolding(course::specs::Standing::past))]
fn go_past(run: &mut Run)
    requires { run.old.next < 255 }
    ensures { run.new ≡ past run.old }
{
    run.next += 1;
}

// An event's line, with node and lock.
#[tactic(auto, unfolding(course::specs::Wording::event_line, course::specs::Wording::event_here))]
fn event_line(run: &Run) -> Line
    requires { run.now.next < 64 }
    ensures { result ≡ event_line run.now }
{
    let event = run.events[usize::from(run.next)];
    wording::event_line(run.reached.steps, run.next, event)
}

// An action's line, by its answer: accepted, or refused with its number and the item's place.
#[tactic(auto, using(crate::proofs::Actions::refusal_told), unfolding(course::specs::Wording::action_line, acts::specs::Actions::action_answer_number))]
fn action_line(
    run: &Run,
    action: Action,
    node: u8,
    lock: u8,
    answer: Result<(), ActionRefusal>,
) -> Line
    requires { action_answer_number answer ≡ action_refusal action node lock run.now }
    ensures { result ≡ action_line action node lock run.now }
{
    let steps = run.reached.steps;
    match answer {
        Ok(()) => wording::action_line(steps, action, node, lock),
        Err(refusal) => wording::refused_line(steps, refusal.number(), items::place_at(run.at)),
    }
}

// Does the action of an item whose end is at this place, and goes past it: the action's line.
#[tactic(auto, using(course::proofs::Told::acted_state_lem, course::proofs::Told::acted_number), unfolding(course::specs::Wording::action_refusal, course::specs::Standing::action_item))]
fn say_action(run: &mut Run, action: Action, node: u8, lock: u8, place: usize) -> Line
    requires { place ≡ run.old.at + 3 }
    ensures line { result ≡ action_line action node lock run.old }
    ensures run_after { run.new ≡ action_item action node lock run.old }
{
    let acted = run.reached.state.act(action, node, lock);
    let line = action_line(run, action, node, lock, acted.answer);
    run.reached.state = acted.state;
    run.at = place;
    line
}

// The line of what is read at the run's place, if it is an action; the run goes past it.
#[tactic(auto, using(course::proofs::Found::found_moves), unfolding(crate::specs::Current::said, crate::specs::Current::answer_saying, crate::specs::Current::act_saying, course::specs::Ready::answer_here))]
fn say_item(run: &mut Run, schedule: &[u8]) -> Option<Line>
    ensures { said result run.new ≡ answer_saying (answer_here schedule.now run.old) run.old }
{
    let reading = items::item_from(schedule, run.at);
    match reading.answer {
        Ok(Some(Item::Act { action, node, lock })) => {
            Some(say_action(run, action, node, lock, reading.at))
        }
        _ => None,
    }
}

// A lock's line, with its busy steps, its grants and its N events.
#[tactic(auto, unfolding(course::specs::Wording::lock_line))]
fn lock_line(run: &Run) -> Line
    ensures { result ≡ lock_line run.now }
{
    let lock = run.next;
    let tally = &run.reached.tally;
    wording::lock_line(
        run.reached.steps,
        lock,
        count_of(&tally.busy, lock),
        count_of(&tally.grants, lock),
        count_of(&tally.failed, lock),
    )
}

// The last line, with grants and N events.
#[tactic(auto, unfolding(course::specs::Wording::last_line, course::specs::Standing::locks_of))]
fn last_line(run: &Run) -> Line
    ensures { result ≡ last_line run.now }
{
    let locks = run.reached.state.plan.locks;
    let grants = tally::sum_of(run.reached.tally.grants, locks);
    let failed = tally::sum_of(run.reached.tally.failed, locks);
    wording::last_line(run.reached.steps, is_cut(run.phase), grants, failed)
}

// A lock's line, or the last one, after which all is said.
#[tactic(auto, unfolding(crate::specs::Current::saying, crate::specs::Current::end_saying, course::specs::Standing::locks_of, course::specs::Standing::all_said))]
fn say_end(run: &mut Run) -> Line
    ensures { saying result run.new ≡ end_saying run.old }
{
    if run.next < run.reached.state.plan.locks {
        let line = lock_line(run);
        go_past(run);
        line
    } else {
        let line = last_line(run);
        run.over = true;
        line
    }
}

// The line of an event or of an item; the run goes past it.
#[tactic(auto, using(course::proofs::Moves::nodes_most), unfolding(crate::specs::Current::said, crate::specs::Current::saying_in))]
fn say_items(run: &mut Run, schedule: &[u8]) -> Option<Line>
    ensures { said result run.new ≡ saying_in Items schedule.now run.old }
{
    if run.next < run.nodes() {
        let line = event_line(run);
        go_past(run);
        Some(line)
    } else {
        say_item(run, schedule)
    }
}

// The line that a run is at; the run goes past it. Nothing where it has no line to say without a step or an item more.
#[tactic(auto, unfolding(crate::specs::Current::said, crate::specs::Current::saying, crate::specs::Current::saying_now, crate::specs::Current::saying_in, course::specs::Wording::refusal_line, course::specs::Standing::all_said))]
pub(crate) fn say(run: &mut Run, schedule: &[u8]) -> Option<Line>
    ensures { said result run.new ≡ saying_now schedule.now run.old }
{
    match run.phase {
        Phase::Items => say_items(run, schedule),
        Phase::Ended | Phase::Cut => Some(say_end(run)),
        Phase::Refused { number, place } => {
            run.over = true;
            Some(wording::refusal_line(run.reached.steps, number, place))
        }
    }
}
