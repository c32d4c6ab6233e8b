// The verdict, by what has been read of a schedule's text.
#![tactic(auto, unfolding(gather::specs::Gathering::is_fine, crate::specs::Verdicts::verdict_number, crate::specs::Verdicts::is_bad, crate::specs::Verdicts::is_looked_at, crate::specs::Verdicts::no_notes, crate::specs::Verdicts::is_a_run, crate::specs::Verdicts::is_a_refusal, crate::specs::Verdicts::is_whole, crate::specs::Verdicts::by_notes, crate::specs::Verdicts::without, crate::specs::Verdicts::worst, crate::specs::Verdicts::judged))]

ghost use Rattle.std.specs.Prelude.{◌≡◌};
ghost use Rattle.verdict.specs.Verdicts.{verdict_number, is_bad, is_looked_at, is_whole, without, worst, judged};

use crate::{Judged, Noted, Verdict, Watch};

// The verdicts by number, worst first. A statement of settled asks it.
pub fn verdict_number(verdict: Verdict) -> u8
    ensures { result ≡ verdict_number verdict }
{
    verdict as u8
}

// Whether the verdict with this number is bad: incomplete, refused, refused actions, cut. Its promise is of every number, so it stands beside the
// method of a verdict; so does the next one.
pub fn is_bad(number: u64) -> bool
    ensures { result ≡ is_bad number }
{
    number < 4
}

// Whether the verdict with this number is to be looked at: locks lost, takes failed.
pub fn is_looked_at(number: u64) -> bool
    ensures { result ≡ is_looked_at number }
{
    !is_bad(number) && number < 6
}

impl Verdict {
    // Whether it is bad.
    pub fn is_bad(self) -> bool
        ensures { result ≡ is_bad (verdict_number self) }
    {
        self < Verdict::LocksLost
    }

    // Whether it is to be looked at.
    pub fn is_looked_at(self) -> bool
        ensures { result ≡ is_looked_at (verdict_number self) }
    {
        !self.is_bad() && self < Verdict::Good
    }
}

// A verdict that rests on no line.
fn without(verdict: Verdict) -> Judged
    ensures { result ≡ without verdict }
{
    Judged {
        verdict,
        noted: Noted::default(),
    }
}

impl Watch {
    // Whether the text is a whole run, with 1 to 64 H lines, or a refused one, and nothing else.
    fn is_whole(self) -> bool
        ensures { result ≡ is_whole self }
    {
        gather::fault_of(self.gather).is_none()
            && match (self.gather.runs, self.gather.refused) {
                (1, 0) => (1..=64).contains(&self.locks.count),
                (0, 1) => true,
                _ => false,
            }
    }

    // The worst line of a whole run decides.
    fn worst(self) -> Judged
        ensures { result ≡ worst self.refusal self.actions self.cut self.lost self.failed }
    {
        let (verdict, noted) = match self {
            Watch { refusal, .. } if 0 < refusal.count => (Verdict::Refused, refusal),
            Watch { actions, .. } if 0 < actions.count => (Verdict::RefusedActions, actions),
            Watch { cut, .. } if 0 < cut.count => (Verdict::Cut, cut),
            Watch { lost, .. } if 0 < lost.count => (Verdict::LocksLost, lost),
            Watch { failed, .. } if 0 < failed.count => (Verdict::TakesFailed, failed),
            _ => (Verdict::Good, Noted::default()),
        };
        Judged { verdict, noted }
    }
}

// The verdict on the text that was read.
pub fn judge(watch: Watch) -> Judged
    ensures { result ≡ judged watch }
{
    if watch.is_whole() {
        watch.worst()
    } else {
        without(Verdict::Incomplete)
    }
}
