// The plan: rules, locks and the positions round the main ring; its range (4), and how many nodes and junctions it has.
#![tactic(auto)]

ghost use Rattle.std.specs.Prelude.{◌≡◌, ◌&&◌, ◌||◌, eqb, leb};
ghost use Rattle.cars.specs.Cars.{multiring};
ghost use Rattle.plan.specs.Plan.{heads_in_range, in_range, node_count, junction_count, plan_survey};

use positions::{Survey, VALUES};

// The most user nodes and junctions that a plan can have: the places that are kept for them.
pub const NODES: usize = 64;

pub const JUNCTIONS: usize = 144;

// The bytes of the positions stand at the first places of `values`; `positions` counts those of the main ring. The memory is fixed, so they are an array,
// and the bytes behind them are the plan's too. `rules` is a byte: a made-up plan may have any, and 4 and 13 are promised of it.
#[derive(Clone, Copy, Debug, PartialEq, Eq)]
pub struct Plan {
    pub rules: u8,
    pub locks: u8,
    pub positions: u8,
    pub values: [u8; VALUES],
}

// Whether the number of user nodes and the rules allow what was surveyed.
fn allowed(rules: u8, survey: Survey) -> bool
    ensures { result ≡ (leb survey.nodes 64 && (multiring rules || eqb survey.junctions 0)) }
{
    survey.nodes <= 64 && (cars::multiring(rules) || survey.junctions == 0)
}

impl Plan {
    // Whether rules, locks and the number of positions are in range.
    #[tactic(auto, unfolding(crate::specs::Plan::heads_in_range))]
    fn heads_in_range(self) -> bool
        ensures { result ≡ heads_in_range self }
    {
        (1..=4).contains(&self.rules)
            && (1..=64).contains(&self.locks)
            && (1..=16).contains(&self.positions)
    }

    // The user nodes and the junctions of a plan of which every value is in its range.
    #[tactic(auto, using(crate::proofs::Laws::survey_right, crate::proofs::Laws::survey_wrong, crate::proofs::Laws::survey_forbidden, crate::proofs::Laws::survey_of_none))]
    pub fn survey(self) -> Option<Survey>
        ensures { result ≡ plan_survey self }
    {
        if !self.heads_in_range() {
            return None;
        }
        let survey = positions::survey_of(self.values, self.positions)?;
        allowed(self.rules, survey).then_some(survey)
    }

    // Whether every value of the plan is in its range.
    #[tactic(auto, using(crate::proofs::Laws::survey_some, crate::proofs::Laws::survey_none))]
    pub fn in_range(self) -> bool
        ensures { result ≡ in_range self }
    {
        self.survey().is_some()
    }

    // The number of user nodes; 0 for a plan out of range, as `node_count` says of every plan: `survey` tells whether it is in range.
    #[tactic(auto, using(crate::proofs::Laws::survey_some, crate::proofs::Laws::survey_none, crate::proofs::Laws::nodes_most), unfolding(crate::specs::Plan::node_count))]
    pub fn nodes(self) -> u8
        ensures { result ≡ node_count self }
    {
        match self.survey() {
            Some(survey) => survey.nodes as u8,
            None => 0,
        }
    }

    // The number of junctions; 0 for a plan out of range, as `junction_count` says of every plan.
    #[tactic(auto, using(crate::proofs::Laws::survey_some, crate::proofs::Laws::survey_none, crate::proofs::Laws::junctions_most), unfolding(crate::specs::Plan::junction_count))]
    pub fn junctions(self) -> u8
        ensures { result ≡ junction_count self }
    {
        match self.survey() {
            Some(survey) => survey.junctions as u8,
            None => 0,
        }
    }
}
