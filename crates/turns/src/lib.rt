// A user node's turn in a step: what its rule does, and the event that it gives.
#![tactic(auto)]

ghost use Rattle.std.specs.Prelude.{◌≡◌};
ghost use Rattle.turns.specs.Turn.{event_letter, event_lock, turn};

use cars::Car;
use usernode::Node;

mod deeds;

// What a step did at a node, with the lock: granted, failp returned, lost to a dov, own dov back, didv sent.
#[derive(Clone, Copy, Debug, PartialEq, Eq)]
pub enum Event {
    Granted(u8),
    Failed(u8),
    Lost(u8),
    Back(u8),
    Sent(u8),
}

// A node after its turn in a step, and the event that its rule gave, if any.
#[derive(Clone, Copy, Debug, PartialEq, Eq)]
pub struct Turn {
    pub node: Node,
    pub event: Option<Event>,
}

// The event's letter in a line; 0 for no event. It and the lock are promised of every outcome of a turn.
#[tactic(auto, unfolding(crate::specs::Turn::event_letter))]
pub fn event_letter(event: Option<Event>) -> u8
    ensures { result ≡ event_letter event }
{
    match event {
        None => 0,
        Some(Event::Granted(_)) => b'G',
        Some(Event::Failed(_)) => b'N',
        Some(Event::Lost(_)) => b'L',
        Some(Event::Back(_)) => b'B',
        Some(Event::Sent(_)) => b'D',
    }
}

// The event's lock; 0 for no event.
#[tactic(auto, unfolding(crate::specs::Turn::event_lock))]
pub fn event_lock(event: Option<Event>) -> u8
    ensures { result ≡ event_lock event }
{
    match event {
        None => 0,
        Some(
            Event::Granted(lock)
            | Event::Failed(lock)
            | Event::Lost(lock)
            | Event::Back(lock)
            | Event::Sent(lock),
        ) => lock,
    }
}

// A node's turn in a step: `me` is its number, `arrival` the car that its predecessor sent before the step.
#[tactic(auto, unfolding(crate::specs::Turn::turn))]
pub fn turn_of(node: Node, rules: u8, me: u8, arrival: Car) -> Turn
    ensures { result ≡ turn rules me arrival node }
{
    let rule = node.rule(me, arrival);
    Turn {
        node: deeds::apply(node, rules, me, arrival, rule),
        event: deeds::event_of(rule),
    }
}
