// Number 15, of one node: an own car arrives that the node is not ready for.
ghost use Rattle.std.specs.Prelude.{◌≡◌};
ghost use Rattle.usernode.specs.Astray.{waits_reqp, waits_dov, unready, astray};

use crate::{Activity, Node};
use cars::{Car, Tag};

// Whether this is waiting for a reqp for the lock.
#[tactic(auto, unfolding(crate::specs::Astray::waits_reqp))]
fn waits_reqp(activity: Activity, lock: u8) -> bool
    ensures { result ≡ waits_reqp activity lock }
{
    matches!(activity, Activity::WaitingReqp(own) if own == lock)
}

// Whether this is waiting for a dov for the lock.
#[tactic(auto, unfolding(crate::specs::Astray::waits_dov))]
fn waits_dov(activity: Activity, lock: u8) -> bool
    ensures { result ≡ waits_dov activity lock }
{
    matches!(activity, Activity::WaitingDov(own) if own == lock)
}

impl Node {
    // Whether the car is the node's own and the node is not ready for it; `waits`: it waits for that kind and lock.
    #[tactic(auto, unfolding(crate::specs::Astray::unready))]
    fn unready(self, me: u8, tag: Tag, waits: bool) -> bool
        ensures { result ≡ unready self me tag waits }
    {
        tag.source == me && (!waits || !self.flag || self.had(tag.lock))
    }

    // Whether a step refuses the car that arrives with 15.
    #[tactic(auto, unfolding(crate::specs::Astray::astray))]
    pub fn astray(self, me: u8, arrival: Car) -> bool
        ensures { result ≡ astray self me arrival }
    {
        match arrival {
            Car::Reqp(tag) | Car::Failp(tag) => self.unready(
                me,
                tag,
                waits_reqp(self.activity, tag.lock),
            ),
            Car::Dov(tag) => self.unready(me, tag, waits_dov(self.activity, tag.lock)),
            _ => false,
        }
    }
}
