// The step along a route: every sender in travelling order acts on the cars sent before the step. And what 14 and 15 say of it.
ghost use Rattle.std.specs.Prelude.{◌≡◌};
ghost use Rattle.ring.specs.Step.{step_told};
ghost use Rattle.ring.specs.Trip.{moving_along};

use crate::{Entered, State, StepRefusal, Stepped};
use cars::Car;
use junction::Passage;
use plan::{JUNCTIONS, NODES};
use route::Leg;
use tours::Span;

impl State {
    // A step along a route, of a state that 13 does not refuse, then the zero node. In one function, so that the arrays are handed
    // on less often. Any list of numbers is a route: a number that names no sender is passed over. The junctions that are open stand by their place and not
    // on a stack, since such a list need not nest.
    #[tactic(auto, using(route::proofs::Legs::node_bound, route::proofs::Legs::into_bound, route::proofs::Legs::out_bound))]
    pub(crate) fn moving(&self, route: &[u16]) -> Stepped
        ensures { step_told result ≡ moving_along route.now self.now }
    {
        let mut next = *self;
        let mut events = [None; NODES];
        let mut opened = [Entered {
            arrival: Car::Idle,
            low: 0,
            wants: false,
        }; JUNCTIONS];
        let mut last = self.zeroth.car;
        let mut astray = false;
        let mut wants = false;
        let mut passed: u8 = 0;
        for &number in route {
            let Some(leg) = route::leg_of(number) else {
                continue;
            };
            match leg {
                Leg::At(place) => {
                    let node = self.nodes[place as usize];
                    let turn = turns::turn_of(node, self.plan.rules, place + 1, last);
                    astray |= node.astray(place + 1, last);
                    wants |= node.wants_train();
                    next.nodes[place as usize] = turn.node;
                    events[place as usize] = turn.event;
                    last = node.car;
                    passed = place + 1;
                }
                Leg::Into(place) => {
                    let junction = self.junctions[place as usize];
                    opened[place as usize] = Entered {
                        arrival: last,
                        low: passed,
                        wants,
                    };
                    wants = false;
                    last = junction.subring;
                }
                Leg::Out { inner, place } => {
                    let junction = self.junctions[place as usize];
                    let entered = opened[place as usize];
                    next.junctions[place as usize] = junction.turn(Passage {
                        inner,
                        span: Span {
                            low: entered.low,
                            high: passed,
                        },
                        wants,
                        arrival: entered.arrival,
                        out: last,
                    });
                    wants |= entered.wants;
                    last = junction.main;
                }
            }
        }
        if self.zeroth.overflows(last) {
            return self.refused(StepRefusal::QueueFull);
        }
        if astray {
            return self.refused(StepRefusal::Astray);
        }
        next.zeroth = self.zeroth.turn(last);
        Stepped {
            answer: Ok(()),
            state: next,
            events,
        }
    }
}
