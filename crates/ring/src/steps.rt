// The step, with its refusals: 13, 14, 15.
ghost use Rattle.std.specs.Prelude.{◌≡◌, true, Err};
ghost use Rattle.plan.specs.Plan.{in_range};
ghost use Rattle.ring.specs.Step.{step_told, moving, stepping, step_answer_number, refused};

use crate::{State, StepRefusal, Stepped};
use plan::NODES;
use route::LEGS;

impl State {
    // The state as it was, with no events.
    #[tactic(auto, unfolding(crate::specs::Step::step_told, crate::specs::Step::refused, crate::specs::Walk::quiet))]
    pub(crate) fn refused(self, refusal: StepRefusal) -> Stepped
        ensures { step_told result ≡ refused (step_answer_number (Err refusal)) self }
    {
        Stepped {
            answer: Err(refusal),
            state: self,
            events: [None; NODES],
        }
    }

    // One step of a state that 13 does not refuse, along the route of its plan.
    fn step_sound(self) -> Stepped
        requires { in_range self.plan ≡ true }
        ensures { step_told result ≡ moving self }
    {
        let mut route = [0; LEGS];
        let laid = route::lay_route(self.plan.values, self.plan.positions, &mut route);
        self.moving(&route[..laid])
    }

    // One step of any state.
    #[tactic(auto, using(crate::proofs::Laws::sound_plan), unfolding(crate::specs::Step::stepping, crate::specs::Step::step_answer_number))]
    pub fn step(self) -> Stepped
        ensures { step_told result ≡ stepping self }
    {
        if self.sound() {
            self.step_sound()
        } else {
            self.refused(StepRefusal::BadState)
        }
    }
}
