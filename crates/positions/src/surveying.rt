// Positions counted: one list of them in a loop, a list within it by a call of its own, with one level less.
ghost use Rattle.std.specs.Prelude.{◌≡◌, ◌*◌, ◌≤◌, length};
ghost use Rattle.positions.specs.Reading.{reading, main_ring, survey_of};
ghost use Rattle.positions.specs.Extent.{extent_of};

use crate::{LEVELS, Position, Survey, VALUES, position_at};

// How far a survey has come: the place reached, the user nodes and junctions before it.
#[derive(Clone, Copy)]
struct Extent {
    place: usize,
    nodes: u16,
    junctions: u16,
}

// So many positions from a place on, with so many levels of junctions, behind a start with so many user nodes and junctions.
#[tactic(auto, using(crate::proofs::Counting::counted_list_wrong, crate::proofs::Counting::counted_wrong, crate::proofs::Counting::counted_all, crate::proofs::Extents::list_deeper))]
fn survey_from(values: &[u8], depth: u8, count: u8, start: Extent) -> Option<Extent>
    requires values_len_bound { length values.now ≤ 352 }
    requires place_in_bounds { start.place ≤ length values.now }
    requires nodes_bound { start.nodes ≤ 4 * start.place }
    requires junctions_le_place { start.junctions ≤ start.place }
    ensures { result ≡ extent_of (reading depth values.now count start.place) start.nodes start.junctions }
{
    let mut extent = start;
    for _ in 0..count {
        let Extent {
            place,
            nodes,
            junctions,
        } = extent;
        let position = position_at(0 < depth, values, place)?;
        extent = match position {
            Position::Node => Extent {
                place: place + 1,
                nodes: nodes + 1,
                junctions,
            },
            Position::Users(size) => Extent {
                place: place + 1,
                nodes: nodes + u16::from(size),
                junctions: junctions + 1,
            },
            Position::Listed(size) => {
                let behind = Extent {
                    place: place + 2,
                    nodes,
                    junctions: junctions + 1,
                };
                survey_from(values, depth - 1, size, behind)?
            }
        };
    }
    Some(extent)
}

// The positions of the main ring: what they have, if they are in range.
#[tactic(auto, using(crate::proofs::Extents::survey_some, crate::proofs::Extents::survey_none), unfolding(crate::specs::Reading::main_ring))]
pub fn survey_of(values: [u8; VALUES], count: u8) -> Option<Survey>
    ensures { result ≡ survey_of (main_ring values count) }
{
    let start = Extent {
        place: 0,
        nodes: 0,
        junctions: 0,
    };
    let all = survey_from(&values, LEVELS, count, start)?;
    Some(Survey {
        nodes: all.nodes,
        junctions: all.junctions,
    })
}
