// A run of a night file where it stands, by value, and moved on to its next line.
#![tactic(auto)]

ghost use Rattle.std.specs.Prelude.{◌≡◌, cond, eqb};
ghost use Rattle.nightfile.specs.File.{file_answer_number, file_answer_place};
ghost use Rattle.course.specs.declared.Phase.TheVariants.{Items, Refused};
ghost use Rattle.course.specs.Standing.{beginning};

use nightfile::FileRefusal;
use plan::NODES;
use ring::State;
use tally::Tally;
use turns::Event;

mod onward;

// What the steps so far have reached: the ring's state, what is counted, and how many steps were done.
#[derive(Clone, Copy)]
pub struct Reached {
    pub state: State,
    pub tally: Tally,
    pub steps: u64,
}

// What a run is at: its items; its end, after all steps or cut at the ceiling; or a refused file with its number and the place of
// its first bad item, 0 where no item is the reason. Number and place, and no `FileRefusal`: `Run::onward` and run's `fill` are promised of every run, also
// of a made-up one with another number, or with a place beside it.
#[derive(Clone, Copy, Debug, PartialEq, Eq)]
pub enum Phase {
    Items,
    Ended,
    Cut,
    Refused { number: u8, place: usize },
}

// A run under way: what it has reached, the place in the schedule, the steps left of the item before that place, the events of
// the last step, the place of the next node to tell of (at the end: the next lock), what it is at, and whether all is said. `over` stands beside the phase, since
// each of the three ends is over in the same way and the last line is told by the phase; `next` is one field, since the definitions speak of it in every
// phase.
#[derive(Clone, Copy)]
pub struct Run {
    pub reached: Reached,
    pub at: usize,
    pub left: u16,
    pub events: [Option<Event>; NODES],
    pub next: u8,
    pub phase: Phase,
    pub over: bool,
}

// What a run is at when it starts, by the answer to its file: at its items, or refused, with the place that is told beside the number.
#[tactic(auto, using(crate::proofs::Told::refusal_told), unfolding(nightfile::specs::File::file_answer_number, nightfile::specs::File::file_answer_place))]
fn first_phase(answer: Result<(), FileRefusal>) -> Phase
    ensures { result ≡ cond (eqb (file_answer_number answer) 0) Items (Refused (file_answer_number answer) (file_answer_place answer)) }
{
    match answer {
        Ok(()) => Phase::Items,
        Err(refusal) => Phase::Refused {
            number: refusal.number(),
            place: refusal.place(),
        },
    }
}

// The run of a file, accepted or refused, before its first line.
#[tactic(auto, using(crate::proofs::Told::started_state, crate::proofs::Told::answered_number, crate::proofs::Told::answered_place), unfolding(crate::specs::Standing::beginning, ring::specs::Walk::quiet))]
pub fn begin(file: &[u8]) -> Run
    ensures { result ≡ beginning file.now }
{
    let plan = nightfile::read_plan(nightfile::plan_part(file));
    Run {
        reached: Reached {
            state: State::start(plan).state,
            tally: tally::empty_tally(),
            steps: 0,
        },
        at: 0,
        left: 0,
        events: [None; NODES],
        next: 0,
        phase: first_phase(nightfile::test_file(file)),
        over: false,
    }
}
