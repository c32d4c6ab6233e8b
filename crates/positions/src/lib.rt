// The positions of a plan: bytes read as a ring of user nodes and junctions, junctions within junctions among them; by recursion, the
// levels that are left falling at each call. And whether bytes end exactly with their positions (3).
#![tactic(auto)]

ghost use Rattle.std.specs.Prelude.{◌≡◌};
ghost use Rattle.positions.specs.Reading.{counted, joined, position_at};

mod shape;
mod surveying;

pub use shape::ends_exactly;
pub use surveying::survey_of;

// The places kept for the bytes of positions: a plan in range has no more.
pub const VALUES: usize = 352;

// The levels of junctions that a plan in range can have.
pub const LEVELS: u8 = 3;

// What stands at a place: a user node, a junction with so many user nodes, or a junction with a list of so many positions.
#[derive(Clone, Copy, Debug, PartialEq, Eq)]
pub enum Position {
    Node,
    Users(u8),
    Listed(u8),
}

// The user nodes and the junctions of positions in range.
#[derive(Clone, Copy, Debug, PartialEq, Eq)]
pub struct Survey {
    pub nodes: u16,
    pub junctions: u16,
}

// A list of so many positions; none that a plan in range has.
#[tactic(auto, unfolding(crate::specs::Reading::counted))]
fn counted(count: u8) -> Option<Position>
    ensures { result ≡ counted count }
{
    match count {
        1..=4 => Some(Position::Listed(count)),
        _ => None,
    }
}

// A junction, by the value at its place.
#[tactic(auto, unfolding(crate::specs::Reading::joined))]
fn joined(deeper: bool, values: &[u8], place: usize, value: u8) -> Option<Position>
    ensures { result ≡ joined deeper values.now place value }
{
    match value {
        _ if !deeper => None,
        0..=4 => Some(Position::Users(value)),
        5 => counted(*values.get(place.checked_add(1)?)?),
        _ => None,
    }
}

// What stands at a place, or nothing that a plan in range has there; `deeper`: a junction may stand there. Nothing is read past the end.
#[tactic(auto, unfolding(crate::specs::Reading::position_at))]
pub fn position_at(deeper: bool, values: &[u8], place: usize) -> Option<Position>
    ensures { result ≡ position_at deeper values.now place }
{
    match *values.get(place)? {
        0 => Some(Position::Node),
        value => joined(deeper, values, place, value),
    }
}
