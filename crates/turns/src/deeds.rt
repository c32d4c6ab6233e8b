// What a rule does: the car that the node sends, its flag, activity and words afterwards, and the event.
ghost use Rattle.std.specs.Prelude.{◌≡◌};
ghost use Rattle.turns.specs.Turn.{becomes, grant_car, apply, event_of};

use crate::Event;
use cars::{Car, Tag};
use usernode::{Activity, Node, Rule};

// What a node sends that is granted a lock.
#[tactic(auto, unfolding(crate::specs::Turn::grant_car))]
fn grant_car(rules: u8, me: u8, lock: u8) -> Car
    ensures { result ≡ grant_car rules me lock }
{
    if cars::multiring(rules) {
        Car::Gotp(Tag { lock, source: me })
    } else {
        Car::Null
    }
}

// The event that a rule gives.
#[tactic(auto, unfolding(crate::specs::Turn::event_of))]
pub fn event_of(rule: Rule) -> Option<Event>
    ensures { result ≡ event_of rule }
{
    match rule {
        Rule::SendsDidv(lock) => Some(Event::Sent(lock)),
        Rule::OwnReqp(lock) => Some(Event::Granted(lock)),
        Rule::OwnFailp(lock) => Some(Event::Failed(lock)),
        Rule::OwnDov(lock) => Some(Event::Back(lock)),
        Rule::LosesLock(tag) => Some(Event::Lost(tag.lock)),
        Rule::Passes | Rule::SendsReqp(_) | Rule::SendsDov(_) | Rule::FailsReqp(_) => None,
    }
}

// The node that now sends this car, and is otherwise as it was but for its flag.
#[tactic(auto, unfolding(crate::specs::Turn::becomes))]
fn sends(node: Node, car: Car) -> Node
    ensures { result ≡ becomes node car node.activity node.held node.letting }
{
    let flag = cars::flag_after(car, node.flag);
    Node { car, flag, ..node }
}

// The node after a rule.
#[tactic(auto, unfolding(crate::specs::Turn::apply, crate::specs::Turn::becomes))]
pub fn apply(node: Node, rules: u8, me: u8, arrival: Car, rule: Rule) -> Node
    ensures { result ≡ apply rules me arrival node rule }
{
    match rule {
        Rule::Passes => sends(node, arrival),
        Rule::SendsReqp(lock) => Node {
            activity: Activity::WaitingReqp(lock),
            ..sends(node, Car::Reqp(Tag { lock, source: me }))
        },
        Rule::SendsDov(lock) => Node {
            activity: Activity::WaitingDov(lock),
            ..sends(node, Car::Dov(Tag { lock, source: me }))
        },
        Rule::SendsDidv(lock) => Node {
            letting: words::without_lock(node.letting, lock),
            ..sends(node, Car::Didv(Tag { lock, source: me }))
        },
        Rule::OwnReqp(lock) => Node {
            activity: Activity::Idle,
            held: words::with_lock(node.held, lock),
            ..sends(node, grant_car(rules, me, lock))
        },
        Rule::OwnFailp(_) | Rule::OwnDov(_) => Node {
            activity: Activity::Idle,
            ..sends(node, Car::Null)
        },
        Rule::FailsReqp(tag) => sends(node, Car::Failp(tag)),
        Rule::LosesLock(tag) => Node {
            held: words::without_lock(node.held, tag.lock),
            letting: usernode::let_go(rules, node.letting, tag.lock),
            ..sends(node, Car::Dov(tag))
        },
    }
}
