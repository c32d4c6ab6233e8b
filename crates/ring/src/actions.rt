// Take, release and force, with their refusals: 13 first, then 7 to 12.
ghost use Rattle.std.specs.Prelude.{◌≡◌};
ghost use Rattle.acts.specs.declared.Action.TheVariants.{Take, Release, Force};
ghost use Rattle.ring.specs.Actions.{action_told, acting, outcome_told};

use crate::{Acted, State};
use acts::{Action, ActionRefusal};

impl State {
    // The state in which the named node has acted, or why it does not.
    #[tactic(auto, using(crate::proofs::Laws::node_place), unfolding(crate::specs::Actions::outcome_told, crate::specs::Actions::acting, crate::specs::Actions::handed_back, crate::specs::Actions::action_number, crate::specs::Actions::acted_state, crate::specs::State::node_of, crate::specs::State::rest_node, lists::specs::Refusal::refused_if, acts::specs::Actions::action_refusal_number, acts::specs::Actions::action_answer_number))]
    fn acted(self, action: Action, node: u8, lock: u8) -> Result<State, ActionRefusal>
        ensures { outcome_told self result ≡ acting action self node lock }
    {
        if !self.sound() {
            return Err(ActionRefusal::BadState);
        }
        if !cars::is_node(self.plan.nodes(), node) {
            return Err(ActionRefusal::NoSuchNode);
        }
        if self.plan.locks <= lock {
            return Err(ActionRefusal::NoSuchLock);
        }
        let place = (node - 1) as usize;
        let acting = self.nodes[place];
        acts::answer(acting, self.plan.rules, action, lock)?;
        let mut next = self;
        next.nodes[place] = acts::acted(acting, self.plan.rules, action, lock);
        Ok(next)
    }

    // An action on any state.
    #[tactic(auto, unfolding(crate::specs::Actions::outcome_told, crate::specs::Actions::action_told, acts::specs::Actions::action_answer_number))]
    pub fn act(self, action: Action, node: u8, lock: u8) -> Acted
        ensures { action_told result ≡ acting action self node lock }
    {
        match self.acted(action, node, lock) {
            Ok(state) => Acted {
                answer: Ok(()),
                state,
            },
            Err(refusal) => Acted {
                answer: Err(refusal),
                state: self,
            },
        }
    }

    // Take: the node is to send a reqp.
    pub fn take(self, node: u8, lock: u8) -> Acted
        ensures { action_told result ≡ acting Take self node lock }
    {
        self.act(Action::Take, node, lock)
    }

    // Release: the node gives up a lock that it holds.
    pub fn release(self, node: u8, lock: u8) -> Acted
        ensures { action_told result ≡ acting Release self node lock }
    {
        self.act(Action::Release, node, lock)
    }

    // Force: the node is to send a dov.
    pub fn force(self, node: u8, lock: u8) -> Acted
        ensures { action_told result ≡ acting Force self node lock }
    {
        self.act(Action::Force, node, lock)
    }
}
