// The route laid: one list of positions in a loop, a list within it by a call of its own, with one level less.
ghost use Rattle.std.specs.Prelude.{◌+◌, ◌≤◌, ◌<◌, ◌≡◌, [], ◌∷◌, ◌++◌, length};
ghost use Rattle.std.proofs.lemmas.List.Edits.{sets};
ghost use Rattle.positions.specs.Reading.{reading, main_ring};
ghost use Rattle.route.specs.Route.{into_number, out_number, route_at, route_of};
ghost use Rattle.route.specs.Laying.{nodes_from, Layable, laid_after};

use positions::{LEVELS, Position, position_at};

// How far the laying has come: the place reached in the route, the place reached in the positions, the user nodes and junctions before it.
#[derive(Clone, Copy)]
struct Laid {
    at: usize,
    place: usize,
    nodes: u16,
    junctions: u16,
}

// The number of the leg into a junction.
#[tactic(auto, unfolding(crate::specs::Route::into_number))]
fn into_number(junction: u16) -> u16
    requires { junction ≤ 352 }
    ensures { result ≡ into_number junction }
{
    64 + junction
}

// The number of the leg out of a junction.
#[tactic(auto, unfolding(crate::specs::Route::out_number))]
fn out_number(inner: bool, junction: u16) -> u16
    requires { junction ≤ 352 }
    ensures { result ≡ out_number inner junction }
{
    if inner {
        352 + junction
    } else {
        208 + junction
    }
}

// Writes the numbers of so many user nodes, and answers with the place behind them.
#[tactic(auto, using(crate::proofs::Steps::nodes_more, crate::proofs::Steps::nodes_none))]
fn put_users(route: &mut [u16], at: usize, node: u16, count: u8) -> usize
    requires { (at + count ≤ length route.old) × (node + count ≤ 65535) }
    ensures value { result ≡ at + count }
    ensures route_after { route.new ≡ sets route.old at (nodes_from node count) }
    ensures route_len_unchanged { length route.new ≡ length route.old }
{
    for i in 0..count {
        route[at + usize::from(i)] = node + u16::from(i);
    }
    at + usize::from(count)
}

// Writes the numbers of a junction with so many user nodes, and answers with the place behind them.
fn put_junction(
    route: &mut [u16],
    at: usize,
    inner: bool,
    node: u16,
    junction: u16,
    count: u8,
) -> usize
    requires count_in_bounds { at + count + 2 ≤ length route.old }
    requires count_bound { node + count ≤ 65535 }
    requires junction_bound { junction ≤ 352 }
    ensures value { result ≡ at + count + 2 }
    ensures route_after { route.new ≡ sets route.old at (into_number junction ∷ (nodes_from node count ++ (out_number inner junction ∷ []))) }
    ensures route_len_unchanged { length route.new ≡ length route.old }
{
    route[at] = into_number(junction);
    let behind = put_users(route, at + 1, node, count);
    route[behind] = out_number(inner, junction);
    behind + 1
}

// Lays the route of so many positions, with so many levels of junctions; the caller has seen that they are in range and that there is room.
#[tactic(auto, using(crate::proofs::Steps::node_here, crate::proofs::Steps::users_here, crate::proofs::Steps::listed_here))]
fn lay(values: &[u8], route: &mut [u16], inner: bool, depth: u8, count: u8, start: Laid) -> Laid
    requires { Layable (length values.now) (length route.old) (reading depth values.now count start.place) start.at start.nodes start.junctions }
    ensures value { result ≡ laid_after (reading depth values.now count start.place) start.at start.nodes start.junctions }
    ensures route_after { route.new ≡ sets route.old start.at (route_at inner (reading depth values.now count start.place).ring start.nodes start.junctions) }
    ensures route_len_unchanged { length route.new ≡ length route.old }
{
    let mut laid = start;
    for _ in 0..count {
        let Laid {
            at,
            place,
            nodes,
            junctions,
        } = laid;
        let position = position_at(0 < depth, values, place).unwrap();
        laid = match position {
            Position::Node => {
                route[at] = nodes;
                Laid {
                    at: at + 1,
                    place: place + 1,
                    nodes: nodes + 1,
                    junctions,
                }
            }
            Position::Users(size) => Laid {
                at: put_junction(route, at, inner, nodes, junctions, size),
                place: place + 1,
                nodes: nodes + u16::from(size),
                junctions: junctions + 1,
            },
            Position::Listed(size) => {
                route[at] = into_number(junctions);
                let within = Laid {
                    at: at + 1,
                    place: place + 2,
                    nodes,
                    junctions: junctions + 1,
                };
                let behind = lay(values, route, true, depth - 1, size, within);
                route[behind.at] = out_number(inner, junctions);
                Laid {
                    at: behind.at + 1,
                    ..behind
                }
            }
        };
    }
    laid
}

// Lays the route of the main ring from the start on, and answers with the place behind it.
pub(crate) fn lay_all(values: &[u8], count: u8, route: &mut [u16]) -> usize
    requires { Layable (length values.now) (length route.old) (main_ring values.now count) 0 0 0 }
    ensures value { result ≡ length (route_of values.now count) }
    ensures route_after { route.new ≡ sets route.old 0 (route_of values.now count) }
{
    let start = Laid {
        at: 0,
        place: 0,
        nodes: 0,
        junctions: 0,
    };
    lay(values, route, false, LEVELS, count, start).at
}
