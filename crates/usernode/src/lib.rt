// One user node: what it is, which of the nine rules fits the car that arrives, and what 13 and 15 say of one node.
#![tactic(auto)]

ghost use Rattle.std.specs.Prelude.{◌≡◌};
ghost use Rattle.usernode.specs.Node.{had, is_idle, wants_train, let_go};

use cars::{Car, Tag};

mod astray;
mod rules;
mod sound;

// Nothing to do; a reqp or a dov to send, or sent and waited for, with its lock.
#[derive(Clone, Copy, Debug, PartialEq, Eq, Hash)]
pub enum Activity {
    Idle,
    ToSendReqp(u8),
    WaitingReqp(u8),
    ToSendDov(u8),
    WaitingDov(u8),
}

// The car it is sending, the in-train flag, the activity, the held word and the letting-go word.
#[derive(Clone, Copy, Debug, PartialEq, Eq, Hash)]
pub struct Node {
    pub car: Car,
    pub flag: bool,
    pub activity: Activity,
    pub held: u64,
    pub letting: u64,
}

// The nine rules, 9 first since that is what a node does that rests, then 1 to 8 in their order (`rule_number`); each with what it needs
// of the car or the node.
#[derive(Clone, Copy, Debug, PartialEq, Eq)]
pub enum Rule {
    Passes,
    SendsReqp(u8),
    SendsDov(u8),
    SendsDidv(u8),
    OwnReqp(u8),
    OwnFailp(u8),
    FailsReqp(Tag),
    OwnDov(u8),
    LosesLock(Tag),
}

// Whether there is nothing to do.
#[tactic(auto, unfolding(crate::specs::Node::is_idle))]
pub fn is_idle(activity: Activity) -> bool
    ensures { result ≡ is_idle activity }
{
    matches!(activity, Activity::Idle)
}

// The letting-go word where a held lock is given up.
#[tactic(auto, unfolding(crate::specs::Node::let_go))]
pub fn let_go(rules: u8, letting: u64, lock: u8) -> u64
    ensures { result ≡ let_go rules letting lock }
{
    if cars::multiring(rules) {
        words::with_lock(letting, lock)
    } else {
        letting
    }
}

impl Node {
    // Whether the node holds the lock or is letting it go.
    #[tactic(auto, unfolding(crate::specs::Node::had))]
    pub fn had(self, lock: u8) -> bool
        ensures { result ≡ had self lock }
    {
        words::has(self.held, lock) || words::has(self.letting, lock)
    }

    // Whether the node wants a train: it has something to send, or waits, or has a lock to let go.
    #[tactic(auto, unfolding(crate::specs::Node::wants_train))]
    pub fn wants_train(self) -> bool
        ensures { result ≡ wants_train self }
    {
        !is_idle(self.activity) || self.letting != 0
    }
}
