// The state of the ring, by value: the start, the test of a made-up state (13), take, release, force, the step and several steps.
#![tactic(auto)]

ghost use Rattle.std.specs.Prelude.{◌≡◌};
ghost use Rattle.ring.specs.State.{plan_answer_number};
ghost use Rattle.ring.specs.Step.{step_answer_number};

use acts::ActionRefusal;
use cars::Car;
use junction::Junction;
use plan::{JUNCTIONS, NODES, Plan};
use turns::Event;
use usernode::Node;
use zeronode::ZeroNode;

mod actions;
mod advance;
mod soundness;
mod starting;
mod steps;
mod walking;

// A junction that a step has entered: the car that came to it, how many nodes stand before it, and whether one of those on the ring on which it stands
// wants a train.
#[derive(Clone, Copy)]
struct Entered {
    arrival: Car,
    low: u8,
    wants: bool,
}

// The plan and every sender. Node n stands at place n - 1, the k-th junction in travelling order at place k - 1; places
// beyond the plan and the queue's count are not in use.
#[derive(Clone, Copy)]
pub struct State {
    pub plan: Plan,
    pub zeroth: ZeroNode,
    pub nodes: [Node; NODES],
    pub junctions: [Junction; JUNCTIONS],
}

// Why a start is refused: the plan that it is asked of is out of range (4).
#[derive(Clone, Copy, Debug, PartialEq, Eq)]
pub struct PlanOutOfRange;

// A start state and whether the plan was in range. Here and in `Acted` and `Stepped` the state stands beside the answer and not in it: 01 names methods
// that take the state by value and return it with outcomes, refused or not.
#[derive(Clone, Copy)]
pub struct Started {
    pub answer: Result<(), PlanOutOfRange>,
    pub state: State,
}

// The state after an action, or the state as it was and why.
#[derive(Clone, Copy)]
pub struct Acted {
    pub answer: Result<(), ActionRefusal>,
    pub state: State,
}

// Why a step is refused: 13 to 15.
#[derive(Clone, Copy, Debug, PartialEq, Eq)]
pub enum StepRefusal {
    BadState,
    QueueFull,
    Astray,
}

// The state after a step and the event of each node, or the state as it was, no events, and why.
#[derive(Clone, Copy)]
pub struct Stepped {
    pub answer: Result<(), StepRefusal>,
    pub state: State,
    pub events: [Option<Event>; NODES],
}

// The state after several steps, the events of the last of them, and how many were done.
#[derive(Clone, Copy)]
pub struct Advanced {
    pub state: State,
    pub events: [Option<Event>; NODES],
    pub done: u16,
}

// The number of an answer to a start in 01; 0: accepted. 01 gives the numbers, so the crates have such functions; a trait over one match each would be
// longer than they are.
#[tactic(auto, unfolding(crate::specs::State::plan_answer_number))]
pub fn plan_number(answer: Result<(), PlanOutOfRange>) -> u8
    ensures { result ≡ plan_answer_number answer }
{
    match answer {
        Ok(()) => 0,
        Err(PlanOutOfRange) => 4,
    }
}

// The number of an answer to a step in 01; 0: done.
#[tactic(auto, unfolding(crate::specs::Step::step_answer_number))]
pub fn step_number(answer: Result<(), StepRefusal>) -> u8
    ensures { result ≡ step_answer_number answer }
{
    match answer {
        Ok(()) => 0,
        Err(StepRefusal::BadState) => 13,
        Err(StepRefusal::QueueFull) => 14,
        Err(StepRefusal::Astray) => 15,
    }
}
