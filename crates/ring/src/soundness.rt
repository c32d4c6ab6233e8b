// The test of a made-up state (13).
ghost use Rattle.std.specs.Prelude.{◌≡◌, ◌≤◌, get_or};
ghost use Rattle.lists.specs.Loops.{every};
ghost use Rattle.usernode.specs.Sound.{node_sound};
ghost use Rattle.junction.specs.Sound.{junction_sound};
ghost use Rattle.ring.specs.State.{rest_node, rest_junction};
ghost use Rattle.ring.specs.Sound.{sound};

use crate::State;
use cars::Limits;

impl State {
    // Whether as many nodes as there are pass.
    fn nodes_pass(&self, limits: Limits) -> bool
        requires { limits.nodes ≤ 64 }
        ensures { result ≡ every (λ place. node_sound limits.rules limits.nodes limits.locks (get_or self.now.nodes place rest_node)) limits.nodes }
    {
        self.nodes[..limits.nodes as usize]
            .iter()
            .all(|node| node.sound(limits))
    }

    // Whether the first `count` junctions pass. Apart from `nodes_pass`: one function for both would need a trait with its law for `sound`, which is longer.
    fn junctions_pass(&self, limits: Limits, count: usize) -> bool
        requires { count ≤ 144 }
        ensures { result ≡ every (λ place. junction_sound limits.rules limits.nodes limits.locks (get_or self.now.junctions place rest_junction)) count }
    {
        self.junctions[..count]
            .iter()
            .all(|junction| junction.sound(limits))
    }

    // Whether nothing of the state is what 13 refuses.
    #[tactic(auto, using(plan::proofs::Laws::nodes_most, plan::proofs::Laws::junctions_most), unfolding(crate::specs::Sound::sound, crate::specs::Sound::zero_passes, crate::specs::Sound::node_passes, crate::specs::Sound::junction_passes, plan::specs::Plan::plan_survey))]
    pub fn sound(self) -> bool
        ensures { result ≡ sound self }
    {
        let Some(survey) = self.plan.survey() else {
            return false;
        };
        let limits = Limits {
            rules: self.plan.rules,
            nodes: survey.nodes as u8,
            locks: self.plan.locks,
        };
        self.zeroth.sound(limits)
            && self.nodes_pass(limits)
            && self.junctions_pass(limits, survey.junctions as usize)
    }
}
