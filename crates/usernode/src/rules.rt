// Which of the nine rules fits a node and the car that arrives: the first that fits.
ghost use Rattle.std.specs.Prelude.{◌≡◌};
ghost use Rattle.usernode.specs.Rules.{on_letting, on_gap, on_idle, on_reqp, on_failp, on_dov, rule};
ghost use Rattle.usernode.specs.Numbers.{rule_number, first_that_fits};

use crate::{Activity, Node, Rule};
use cars::{Car, Tag};

// Rule 3, where neither 1 nor 2 fits.
#[tactic(auto, unfolding(crate::specs::Rules::on_letting))]
fn on_letting(letting: u64) -> Rule
    ensures { result ≡ on_letting letting }
{
    if letting == 0 {
        Rule::Passes
    } else {
        Rule::SendsDidv(words::least(letting))
    }
}

// Rules 1 to 3, where idle arrives and the flag is set.
#[tactic(auto, unfolding(crate::specs::Rules::on_gap))]
fn on_gap(activity: Activity, letting: u64) -> Rule
    ensures { result ≡ on_gap activity letting }
{
    match activity {
        Activity::ToSendReqp(lock) => Rule::SendsReqp(lock),
        Activity::ToSendDov(lock) => Rule::SendsDov(lock),
        Activity::Idle | Activity::WaitingReqp(_) | Activity::WaitingDov(_) => on_letting(letting),
    }
}

// Rule 5.
#[tactic(auto, unfolding(crate::specs::Rules::on_failp))]
fn on_failp(me: u8, tag: Tag) -> Rule
    ensures { result ≡ on_failp me tag }
{
    if tag.source == me {
        Rule::OwnFailp(tag.lock)
    } else {
        Rule::Passes
    }
}

impl Node {
    // Rules 1 to 3, where idle arrives.
    #[tactic(auto, unfolding(crate::specs::Rules::on_idle))]
    fn on_idle(self) -> Rule
        ensures { result ≡ on_idle self }
    {
        if self.flag {
            on_gap(self.activity, self.letting)
        } else {
            Rule::Passes
        }
    }

    // Rules 4 and 6.
    #[tactic(auto, unfolding(crate::specs::Rules::on_reqp))]
    fn on_reqp(self, me: u8, tag: Tag) -> Rule
        ensures { result ≡ on_reqp self me tag }
    {
        if tag.source == me {
            Rule::OwnReqp(tag.lock)
        } else if self.flag && self.had(tag.lock) {
            Rule::FailsReqp(tag)
        } else {
            Rule::Passes
        }
    }

    // Rules 7 and 8.
    #[tactic(auto, unfolding(crate::specs::Rules::on_dov))]
    fn on_dov(self, me: u8, tag: Tag) -> Rule
        ensures { result ≡ on_dov self me tag }
    {
        if tag.source == me {
            Rule::OwnDov(tag.lock)
        } else if words::has(self.held, tag.lock) {
            Rule::LosesLock(tag)
        } else {
            Rule::Passes
        }
    }

    // The first rule that fits; its number is 01's.
    #[tactic(auto, unfolding(crate::specs::Rules::rule))]
    pub fn rule(self, me: u8, arrival: Car) -> Rule
        ensures { (result ≡ rule self me arrival) × (rule_number result ≡ first_that_fits self me arrival) }
    {
        match arrival {
            Car::Idle => self.on_idle(),
            Car::Reqp(tag) => self.on_reqp(me, tag),
            Car::Failp(tag) => on_failp(me, tag),
            Car::Dov(tag) => self.on_dov(me, tag),
            _ => Rule::Passes,
        }
    }
}
