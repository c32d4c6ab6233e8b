// Take, release and force at the node that is named: the numbers 9 to 12, and the node after an action that is accepted.
#![tactic(auto)]

ghost use Rattle.std.specs.Prelude.{◌≡◌};
ghost use Rattle.acts.specs.Actions.{action_refusal_number, action_answer_number, wish_number, release_number, needs_idle, node_number, acted};

use usernode::{Activity, Node};

// The three actions between steps.
#[derive(Clone, Copy, Debug, PartialEq, Eq)]
pub enum Action {
    Take,
    Release,
    Force,
}

// Why an action is refused: 7 to 12, or 13.
#[derive(Clone, Copy, Debug, PartialEq, Eq)]
pub enum ActionRefusal {
    NoSuchNode,
    NoSuchLock,
    NotIdle,
    Holds,
    LettingGo,
    DoesNotHold,
    BadState,
}

impl ActionRefusal {
    // The refusal's number in 01.
    #[tactic(auto, unfolding(crate::specs::Actions::action_refusal_number))]
    pub fn number(self) -> u8
        ensures { result ≡ action_refusal_number self }
    {
        match self {
            ActionRefusal::NoSuchNode => 7,
            ActionRefusal::NoSuchLock => 8,
            ActionRefusal::NotIdle => 9,
            ActionRefusal::Holds => 10,
            ActionRefusal::LettingGo => 11,
            ActionRefusal::DoesNotHold => 12,
            ActionRefusal::BadState => 13,
        }
    }
}

// The answer's number in 01; 0: accepted.
#[tactic(auto, unfolding(crate::specs::Actions::action_answer_number))]
pub fn answer_number(answer: Result<(), ActionRefusal>) -> u8
    ensures { result ≡ action_answer_number answer }
{
    match answer {
        Ok(()) => 0,
        Err(refusal) => refusal.number(),
    }
}

// Take and force: 10 and 11.
#[tactic(auto, unfolding(crate::specs::Actions::action_refusal_number, crate::specs::Actions::action_answer_number, crate::specs::Actions::wish_number))]
fn answer_to_wish(node: Node, lock: u8) -> Result<(), ActionRefusal>
    ensures { action_answer_number result ≡ wish_number node lock }
{
    if words::has(node.held, lock) {
        return Err(ActionRefusal::Holds);
    }
    if words::has(node.letting, lock) {
        return Err(ActionRefusal::LettingGo);
    }
    Ok(())
}

// Release: 12.
#[tactic(auto, unfolding(crate::specs::Actions::action_refusal_number, crate::specs::Actions::action_answer_number, crate::specs::Actions::release_number))]
fn answer_to_release(node: Node, lock: u8) -> Result<(), ActionRefusal>
    ensures { action_answer_number result ≡ release_number node lock }
{
    if words::has(node.held, lock) {
        Ok(())
    } else {
        Err(ActionRefusal::DoesNotHold)
    }
}

// Whether an action needs an idle activity: take and force always, a release by the rules.
#[tactic(auto, unfolding(crate::specs::Actions::needs_idle))]
fn needs_idle(rules: u8, action: Action) -> bool
    ensures { result ≡ needs_idle rules action }
{
    match action {
        Action::Take | Action::Force => true,
        Action::Release => cars::release_needs_idle(rules),
    }
}

// The node's answer to an action: accepted, or 9 to 12.
#[tactic(auto, unfolding(crate::specs::Actions::action_refusal_number, crate::specs::Actions::action_answer_number, crate::specs::Actions::later_number, crate::specs::Actions::node_number))]
pub fn answer(node: Node, rules: u8, action: Action, lock: u8) -> Result<(), ActionRefusal>
    ensures { action_answer_number result ≡ node_number rules action node lock }
{
    if !usernode::is_idle(node.activity) && needs_idle(rules, action) {
        return Err(ActionRefusal::NotIdle);
    }
    match action {
        Action::Take | Action::Force => answer_to_wish(node, lock),
        Action::Release => answer_to_release(node, lock),
    }
}

// The node after an accepted action. Apart from `answer`: each is promised of every node, refused or not.
#[tactic(auto, unfolding(crate::specs::Actions::busy_with, crate::specs::Actions::released, crate::specs::Actions::acted))]
pub fn acted(node: Node, rules: u8, action: Action, lock: u8) -> Node
    ensures { result ≡ acted rules action node lock }
{
    match action {
        Action::Take => Node {
            activity: Activity::ToSendReqp(lock),
            ..node
        },
        Action::Release => Node {
            held: words::without_lock(node.held, lock),
            letting: usernode::let_go(rules, node.letting, lock),
            ..node
        },
        Action::Force => Node {
            activity: Activity::ToSendDov(lock),
            ..node
        },
    }
}
