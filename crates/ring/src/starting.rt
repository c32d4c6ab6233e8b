// The start state of a plan.
ghost use Rattle.std.specs.Prelude.{◌≡◌};
ghost use Rattle.ring.specs.State.{rest_node, rest_junction, start_of, small_plan, start_told, starting};

use crate::{PlanOutOfRange, Started, State};
use cars::Car;
use junction::Junction;
use plan::{JUNCTIONS, NODES, Plan};
use positions::VALUES;
use usernode::{Activity, Node};
use zeronode::ZeroNode;

// A node that rests: what an unused place holds.
#[tactic(auto, unfolding(crate::specs::State::rest_node))]
fn rest_node() -> Node
    ensures { result ≡ rest_node }
{
    Node {
        car: Car::Idle,
        flag: false,
        activity: Activity::Idle,
        held: 0,
        letting: 0,
    }
}

// A junction that rests.
#[tactic(auto, unfolding(crate::specs::State::rest_junction))]
fn rest_junction() -> Junction
    ensures { result ≡ rest_junction }
{
    Junction {
        main: Car::Idle,
        subring: Car::Idle,
        train: false,
        tour: false,
        word: 0,
    }
}

// Plan 1, 1, 1, 0.
#[tactic(auto, unfolding(crate::specs::State::small_plan))]
fn small_plan() -> Plan
    ensures { result ≡ small_plan }
{
    Plan {
        rules: 1,
        locks: 1,
        positions: 1,
        values: [0; VALUES],
    }
}

// The zero node sends the token, all others rest.
#[tactic(auto, unfolding(crate::specs::State::start_of))]
fn start_of(plan: Plan) -> State
    ensures { result ≡ start_of plan }
{
    State {
        plan,
        zeroth: ZeroNode::start(),
        nodes: [rest_node(); NODES],
        junctions: [rest_junction(); JUNCTIONS],
    }
}

impl State {
    // The start state of a plan; for a plan out of range 4, with the start state of plan 1, 1, 1, 0 beside it.
    #[tactic(auto, unfolding(crate::specs::State::start_told, crate::specs::State::starting, crate::specs::State::start_state, crate::specs::State::plan_answer_number, plan::specs::Plan::plan_number))]
    pub fn start(plan: Plan) -> Started
        ensures { start_told result ≡ starting plan }
    {
        if plan.in_range() {
            Started {
                answer: Ok(()),
                state: start_of(plan),
            }
        } else {
            Started {
                answer: Err(PlanOutOfRange),
                state: start_of(small_plan()),
            }
        }
    }
}
