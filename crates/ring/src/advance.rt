// Several steps with one test of 13: until one has an event, or so many are done.
ghost use Rattle.std.specs.Prelude.{◌≡◌, true, ◌≤◌, take};
ghost use Rattle.std.specs.List.{list_all};
ghost use Rattle.ring.specs.Sound.{sound};
ghost use Rattle.ring.specs.Advance.{no_event, advancing};

use crate::{Advanced, State};
use plan::NODES;
use route::LEGS;
use turns::Event;

// Whether none of the first `count` nodes has an event. The events by value: behind a reference each step would copy the state once more.
#[tactic(auto, unfolding(crate::specs::Advance::no_event))]
fn is_silent(events: [Option<Event>; NODES], count: usize) -> bool
    requires { count ≤ 64 }
    ensures { result ≡ list_all no_event (take count events) }
{
    events[..count].iter().all(|event| event.is_none())
}

impl State {
    // Steps of a state that 13 does not refuse: each leaves such a state, so 13 is tested no more, and the route is laid once.
    #[tactic(auto, using(plan::proofs::Laws::nodes_most))]
    fn advance_sound(self, limit: u16) -> Advanced
        requires { sound self ≡ true }
        ensures { result ≡ advancing limit self }
    {
        let count = self.plan.nodes() as usize;
        let mut route = [0; LEGS];
        let laid = route::lay_route(self.plan.values, self.plan.positions, &mut route);
        let mut state = self;
        let mut events = [None; NODES];
        for done in 0..limit {
            let stepped = state.moving(&route[..laid]);
            state = stepped.state;
            events = stepped.events;
            if !is_silent(events, count) {
                return Advanced {
                    state,
                    events,
                    done: done + 1,
                };
            }
        }
        Advanced {
            state,
            events,
            done: limit,
        }
    }

    // Steps of any state, until one has an event or so many are done; on a state that 13 refuses each is refused.
    #[tactic(auto, using(crate::proofs::Advancing::all_refused), unfolding(crate::specs::Walk::quiet))]
    pub fn advance(self, limit: u16) -> Advanced
        ensures { result ≡ advancing limit self }
    {
        if self.sound() {
            self.advance_sound(limit)
        } else {
            Advanced {
                state: self,
                events: [None; NODES],
                done: limit,
            }
        }
    }
}
