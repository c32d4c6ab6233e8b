// The item reader over a lent slice and a place: no more, an item, bytes left over (5), or a first byte above 3 (6) with the item's place.
ghost use Rattle.std.specs.Prelude.{◌≡◌, ◌+◌, ◌<◌, length};
ghost use Rattle.items.specs.Items.{action_of, item_of, read_at};

use crate::{Cursor, Item, ItemRefusal, Reading};
use acts::Action;

// The action of an item's first byte: 1 take, 2 release, 3 force.
#[tactic(auto, unfolding(crate::specs::Items::action_of))]
fn action_of(kind: u8) -> Action
    ensures { result ≡ action_of kind }
{
    match kind {
        1 => Action::Take,
        2 => Action::Release,
        _ => Action::Force,
    }
}

// The item whose three bytes start at a place.
#[tactic(auto, unfolding(crate::specs::Items::item_of, nightfile::specs::File::byte_at))]
fn item_at(schedule: &[u8], at: usize) -> Item
    requires { at + 2 < length schedule.now }
    ensures { result ≡ item_of schedule.now at }
{
    match schedule[at] {
        0 => Item::Steps(nightfile::two_at(schedule, at + 1)),
        kind => Item::Act {
            action: action_of(kind),
            node: schedule[at + 1],
            lock: schedule[at + 2],
        },
    }
}

// What is read at a place, and the place afterwards, which moves only past an item.
#[tactic(auto, unfolding(crate::specs::Items::read_at, crate::specs::Items::reading, nightfile::specs::File::byte_at))]
pub fn read_at(schedule: &[u8], at: usize) -> Reading
    ensures { result ≡ read_at schedule.now at }
{
    if schedule.len() <= at {
        return Reading {
            answer: Ok(None),
            at,
        };
    }
    if schedule.len() - at < 3 {
        return Reading {
            answer: Err(ItemRefusal::LeftOver),
            at,
        };
    }
    if 3 < schedule[at] {
        let place = crate::place_at(at);
        return Reading {
            answer: Err(ItemRefusal::Bad(place)),
            at,
        };
    }
    Reading {
        answer: Ok(Some(item_at(schedule, at))),
        at: at + 3,
    }
}

impl Cursor {
    // What is read at the cursor's place.
    pub fn read(self, schedule: &[u8]) -> Reading
        ensures { result ≡ read_at schedule.now self.at }
    {
        read_at(schedule, self.at)
    }
}
