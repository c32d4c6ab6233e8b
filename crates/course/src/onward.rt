// A run that is moved on, past all that says nothing, to its next line.
ghost use Rattle.std.specs.Prelude.{◌≡◌, true, false, ◌-◌, ◌^◌, ◌≤◌, min};
ghost use Rattle.course.specs.declared.Phase.TheVariants.{Items};
ghost use Rattle.course.specs.Standing.{nodes_of, at_end};
ghost use Rattle.course.specs.Several.{AtOnce, several_tally, several_steps};
ghost use Rattle.course.specs.Wording.{is_event};
ghost use Rattle.course.specs.Whole.{course};
ghost use Rattle.course.specs.Ready.{ready};

use crate::{Phase, Reached, Run};
use items::Item;
use ring::Advanced;
use tally::Tally;

// The steps to do at once: those that are left, but no more than up to the ceiling.
fn at_once(left: u16, steps: u64, ceiling: u64) -> u16
    requires { steps ≤ ceiling }
    ensures { result ≡ min left (ceiling - steps) }
{
    u64::from(left).min(ceiling - steps) as u16
}

impl Run {
    // The user nodes of its plan.
    #[tactic(auto, unfolding(crate::specs::Standing::nodes_of))]
    pub fn nodes(self) -> u8
        ensures { result ≡ nodes_of self }
    {
        self.reached.state.plan.nodes()
    }

    // What is counted after these steps: all but the last are without an event.
    #[tactic(auto, unfolding(crate::specs::Several::several_tally, crate::specs::Standing::locks_of))]
    fn several_tally(self, advanced: Advanced) -> Tally
        requires { 1 ≤ advanced.done }
        ensures { result ≡ several_tally advanced self }
    {
        let before = self.reached.state.nodes;
        let after = advanced.state.nodes;
        let count = self.nodes();
        let locks = self.reached.state.plan.locks;
        let silent = tally::silent_tally(
            before,
            count,
            locks,
            advanced.done - 1,
            self.reached.tally,
        );
        tally::step_tally(after, advanced.events, count, locks, silent)
    }

    // At most so many steps of the item, up to the first that has an event: those done are not left any more, and the last one's
    // events are to be told from the first node on.
    #[tactic(auto, unfolding(crate::specs::Several::several_steps, crate::specs::Several::after_steps))]
    fn several_steps(self, limit: u16) -> Run
        requires { AtOnce (2 ^ 64 - 1) self.reached.steps self.left limit }
        ensures { result ≡ several_steps limit self }
    {
        let advanced = self.reached.state.advance(limit);
        let tally = self.several_tally(advanced);
        let Advanced {
            state,
            events,
            done,
        } = advanced;
        Run {
            reached: Reached {
                state,
                tally,
                steps: self.reached.steps + u64::from(done),
            },
            left: self.left - done,
            events,
            next: 0,
            ..self
        }
    }

    // At the end: the locks are told from lock 0 on.
    #[tactic(auto, unfolding(crate::specs::Standing::at_end))]
    fn at_end(self, phase: Phase) -> Run
        ensures { result ≡ at_end phase self }
    {
        Run {
            next: 0,
            phase,
            ..self
        }
    }

    // The run at its next line: past nodes with no event, steps, and items of steps, to an event, an action or the end. It is a `loop`: how many turns it
    // takes is not known before.
    fn to_line(self, schedule: &[u8], ceiling: u64) -> Run
        requires { (self.over ≡ false) × (self.phase ≡ Items) }
        ensures { (course ceiling schedule.now result ≡ course ceiling schedule.now self) × (ready schedule.now result ≡ true) }
    {
        let nodes = self.nodes();
        let mut run = self;
        loop {
            if run.next < nodes {
                if run.events[run.next as usize].is_some() {
                    return run;
                }
                run.next += 1;
            } else if 0 < run.left {
                if ceiling <= run.reached.steps {
                    return run.at_end(Phase::Cut);
                }
                run = run.several_steps(at_once(run.left, run.reached.steps, ceiling));
            } else {
                let reading = items::item_from(schedule, run.at);
                let Some(item) = reading.answer.unwrap_or(None) else {
                    return run.at_end(Phase::Ended);
                };
                match item {
                    Item::Act { .. } => return run,
                    Item::Steps(steps) => {
                        run.left = steps;
                        run.at = reading.at;
                    }
                }
            }
        }
    }

    // The run at its next line, whatever it is at.
    #[tactic(auto, using(crate::proofs::Way::ready_over, crate::proofs::Way::ready_at_end))]
    pub fn onward(self, schedule: &[u8], ceiling: u64) -> Run
        ensures { (course ceiling schedule.now result ≡ course ceiling schedule.now self) × (ready schedule.now result ≡ true) }
    {
        match self.phase {
            Phase::Items if !self.over => self.to_line(schedule, ceiling),
            _ => self,
        }
    }
}
