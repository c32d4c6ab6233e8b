// The route of a ring: its senders in travelling order as numbers, one number a leg.
#![tactic(auto)]

ghost use Rattle.std.specs.Prelude.{◌+◌, ◌*◌, ◌≡◌, length};
ghost use Rattle.std.proofs.lemmas.List.Edits.{sets};
ghost use Rattle.route.specs.Route.{leg_of, laid_in};

use positions::{Survey, VALUES};

mod laying;

// The most legs that the route of a plan in range has: 64 user nodes, and 144 junctions with two each.
pub const LEGS: usize = 352;

// A leg of the route: a user node, into a junction or out of it (`inner`: a junction of a subring), each by its place.
#[derive(Clone, Copy, Debug, PartialEq, Eq)]
pub enum Leg {
    At(u8),
    Into(u8),
    Out { inner: bool, place: u8 },
}

// The leg that a number stands for, if it stands for one.
#[tactic(auto, unfolding(crate::specs::Route::leg_of))]
pub fn leg_of(number: u16) -> Option<Leg>
    ensures { result ≡ leg_of number }
{
    match number {
        0..=63 => Some(Leg::At(number as u8)),
        64..=207 => Some(Leg::Into((number - 64) as u8)),
        208..=351 => Some(Leg::Out {
            inner: false,
            place: (number - 208) as u8,
        }),
        352..=495 => Some(Leg::Out {
            inner: true,
            place: (number - 352) as u8,
        }),
        _ => None,
    }
}

// How many legs the route of so many user nodes and junctions has.
fn leg_count(survey: Survey) -> usize
    ensures { result ≡ survey.nodes + 2 * survey.junctions }
{
    usize::from(survey.nodes) + 2 * usize::from(survey.junctions)
}

// Lays the route of so many positions at the start of a lent row of numbers, and answers with how many numbers it has; where the positions
// are not in range or the row is too short for all of it, the row stays as it was, and 0 is the length of the empty route. The row is of numbers and not of
// legs, since the caller lends it and `laid_in` is promised of it.
pub fn lay_route(values: [u8; VALUES], count: u8, route: &mut [u16]) -> usize
    ensures value { result ≡ length (laid_in (length route.old) values count) }
    ensures route_after { route.new ≡ sets route.old 0 (laid_in (length route.old) values count) }
{
    let Some(survey) = positions::survey_of(values, count) else {
        return 0;
    };
    if leg_count(survey) <= route.len() {
        return laying::lay_all(&values, count, route);
    }
    0
}
