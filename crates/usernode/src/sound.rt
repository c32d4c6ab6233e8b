// Number 13, of one node: nothing of it names what is missing, or what ring rules do not have.
ghost use Rattle.std.specs.Prelude.{◌≡◌, ℕ};
ghost use Rattle.usernode.specs.Sound.{lock_named, activity_names, letting_allowed, node_sound};

use crate::{Activity, Node};
use cars::Limits;

// The lock of an activity; none where there is nothing to do.
#[tactic(auto, unfolding(crate::specs::Sound::activity_names))]
fn lock_of(activity: Activity) -> Option<u8>
    ensures { (locks : ℕ) → activity_names locks activity ≡ lock_named locks result }
{
    match activity {
        Activity::Idle => None,
        Activity::ToSendReqp(lock)
        | Activity::WaitingReqp(lock)
        | Activity::ToSendDov(lock)
        | Activity::WaitingDov(lock) => Some(lock),
    }
}

// Whether an activity names no missing lock. By its lock and not by its case, since 13 asks it of every node at every action.
fn activity_names(locks: u8, activity: Activity) -> bool
    ensures { result ≡ activity_names locks activity }
{
    match lock_of(activity) {
        None => true,
        Some(lock) => lock < locks,
    }
}

// Whether the rules allow this letting-go word.
#[tactic(auto, unfolding(crate::specs::Sound::letting_allowed))]
fn letting_allowed(rules: u8, letting: u64) -> bool
    ensures { result ≡ letting_allowed rules letting }
{
    cars::multiring(rules) || letting == 0
}

impl Node {
    // Whether nothing of the node is what 13 refuses.
    #[tactic(auto, unfolding(crate::specs::Sound::node_sound))]
    pub fn sound(self, limits: Limits) -> bool
        ensures { result ≡ node_sound limits.rules limits.nodes limits.locks self }
    {
        cars::car_names(limits, self.car)
            && activity_names(limits.locks, self.activity)
            && words::all_below(self.held, limits.locks)
            && words::all_below(self.letting, limits.locks)
            && letting_allowed(limits.rules, self.letting)
    }
}
