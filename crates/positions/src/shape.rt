// Whether bytes end exactly with their positions (3), by a count of the positions that are still to come.
ghost use Rattle.std.specs.Prelude.{◌≡◌, false};
ghost use Rattle.positions.specs.Shape.{ends_at};

// Whether bytes end exactly where so many positions do. Where more positions are to come than bytes are left they never do: so the first count that
// brings more than there are bytes ends the reading, and their count may stop at the largest number, and no sum passes it.
#[tactic(auto, using(crate::proofs::Ending::ending_count, crate::proofs::Ending::ending_position, crate::proofs::Ending::ended_early, crate::proofs::Ending::ended_over, crate::proofs::Ending::ended_none, crate::proofs::Ending::ended_more))]
pub fn ends_exactly(bytes: &[u8], count: u8) -> bool
    ensures { result ≡ ends_at false count bytes.now }
{
    let mut coming = usize::from(count);
    let mut opening = false;
    for &byte in bytes {
        if opening {
            coming = coming.saturating_add(usize::from(byte));
            opening = false;
            if bytes.len() < coming {
                return false;
            }
        } else {
            if coming == 0 {
                return false;
            }
            coming -= 1;
            opening = byte == 5;
        }
    }
    coming == 0 && !opening
}
