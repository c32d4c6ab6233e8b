// The words of each line of a run: its letter and its numbers, by what it tells.
#![tactic(auto)]

ghost use Rattle.std.specs.Prelude.{◌≡◌};
ghost use Rattle.wording.specs.Wording.{line_of, action_letter, action_says, refused_says, event_says, lock_says, end_letter, last_says, refusal_says};

use acts::Action;
use turns::Event;

// A line: steps done, letter, two numbers, and two more where it is long.
#[derive(Clone, Copy, Debug, PartialEq, Eq)]
pub struct Line {
    pub steps: u64,
    pub letter: u8,
    pub first: u64,
    pub second: u64,
    pub more: Option<(u64, u64)>,
}

// The line with this letter and these two numbers, after so many steps.
#[tactic(auto, unfolding(crate::specs::Wording::line_of))]
fn line_of(steps: u64, letter: u8, first: u64, second: u64) -> Line
    ensures { result ≡ line_of steps letter first second }
{
    Line {
        steps,
        letter,
        first,
        second,
        more: None,
    }
}

// The letter of an accepted action.
#[tactic(auto, unfolding(crate::specs::Wording::action_letter))]
fn action_letter(action: Action) -> u8
    ensures { result ≡ action_letter action }
{
    match action {
        Action::Take => b'T',
        Action::Release => b'R',
        Action::Force => b'F',
    }
}

// An accepted action: T, R or F, with node and lock.
#[tactic(auto, unfolding(crate::specs::Wording::action_says))]
pub fn action_line(steps: u64, action: Action, node: u8, lock: u8) -> Line
    ensures { result ≡ action_says steps action node lock }
{
    line_of(
        steps,
        action_letter(action),
        u64::from(node),
        u64::from(lock),
    )
}

// A refused action: X, with its number and the item's place. The number is any byte, as is promised.
#[tactic(auto, unfolding(crate::specs::Wording::refused_says))]
pub fn refused_line(steps: u64, number: u8, place: usize) -> Line
    ensures { result ≡ refused_says steps number place }
{
    line_of(steps, b'X', u64::from(number), place as u64)
}

// An event of the node at a place, with node and lock.
#[tactic(auto, unfolding(crate::specs::Wording::event_says))]
pub fn event_line(steps: u64, place: u8, event: Option<Event>) -> Line
    ensures { result ≡ event_says steps place event }
{
    line_of(
        steps,
        turns::event_letter(event),
        u64::from(place) + 1,
        u64::from(turns::event_lock(event)),
    )
}

// A lock, its busy steps, its grants and its N events: H, a long line.
#[tactic(auto, unfolding(crate::specs::Wording::lock_says, crate::specs::Wording::line_of))]
pub fn lock_line(steps: u64, lock: u8, busy: u64, grants: u64, failed: u64) -> Line
    ensures { result ≡ lock_says steps lock busy grants failed }
{
    Line {
        more: Some((grants, failed)),
        ..line_of(steps, b'H', u64::from(lock), busy)
    }
}

// The letter of the last line: C where the run was cut at the ceiling.
#[tactic(auto, unfolding(crate::specs::Wording::end_letter))]
fn end_letter(cut: bool) -> u8
    ensures { result ≡ end_letter cut }
{
    if cut { b'C' } else { b'E' }
}

// The last line: E or C, with grants and N events.
#[tactic(auto, unfolding(crate::specs::Wording::last_says))]
pub fn last_line(steps: u64, cut: bool, grants: u64, failed: u64) -> Line
    ensures { result ≡ last_says steps cut grants failed }
{
    line_of(steps, end_letter(cut), grants, failed)
}

// A refused file: Q, with its number and the place that is told beside it. The number is any byte, as is promised.
#[tactic(auto, unfolding(crate::specs::Wording::refusal_says))]
pub fn refusal_line(steps: u64, number: u8, place: usize) -> Line
    ensures { result ≡ refusal_says steps number place }
{
    line_of(steps, b'Q', u64::from(number), place as u64)
}
