// The items of a schedule: what the item reader finds at a place, and the place afterwards.
#![tactic(auto)]

ghost use Rattle.std.specs.Prelude.{◌≡◌};
ghost use Rattle.items.specs.Items.{place_at, item_refusal_number, item_refusal_place, item_answer_number, item_answer_place, read_at};

use acts::Action;

mod held;
mod lent;

// An item of the schedule: that many steps, or an action with its node and lock.
#[derive(Clone, Copy, Debug, PartialEq, Eq)]
pub enum Item {
    Steps(u16),
    Act { action: Action, node: u8, lock: u8 },
}

// Why an item reader finds no item where bytes are left: one or two bytes (5), or a first byte above 3 (6), with the item's place
// counted from 0.
#[derive(Clone, Copy, Debug, PartialEq, Eq)]
pub enum ItemRefusal {
    LeftOver,
    Bad(usize),
}

// What was found, nothing where there are no more items, and the place afterwards.
#[derive(Clone, Copy, Debug, PartialEq, Eq)]
pub struct Reading {
    pub answer: Result<Option<Item>, ItemRefusal>,
    pub at: usize,
}

// The place reached in a schedule.
#[derive(Clone, Copy, Debug, PartialEq, Eq)]
pub struct Cursor {
    pub at: usize,
}

// A schedule's bytes and the place reached in them.
#[derive(Clone, Copy)]
pub struct Reader<'a> {
    pub schedule: &'a [u8],
    pub at: usize,
}

impl ItemRefusal {
    // The refusal's number in 01.
    #[tactic(auto, unfolding(crate::specs::Items::item_refusal_number))]
    pub fn number(self) -> u8
        ensures { result ≡ item_refusal_number self }
    {
        match self {
            ItemRefusal::LeftOver => 5,
            ItemRefusal::Bad(_) => 6,
        }
    }

    // The place of the bad item that the refusal tells, counted from 0; 0 where it tells none, as a line Q has it.
    #[tactic(auto, unfolding(crate::specs::Items::item_refusal_place))]
    pub fn place(self) -> usize
        ensures { result ≡ item_refusal_place self }
    {
        match self {
            ItemRefusal::LeftOver => 0,
            ItemRefusal::Bad(place) => place,
        }
    }
}

// The number of an item reader's answer in 01; 0: an item, or no more.
#[tactic(auto, unfolding(crate::specs::Items::item_answer_number))]
pub fn item_number(answer: Result<Option<Item>, ItemRefusal>) -> u8
    ensures { result ≡ item_answer_number answer }
{
    match answer {
        Ok(_) => 0,
        Err(refusal) => refusal.number(),
    }
}

// The place of the bad item that an item reader's answer tells, counted from 0; 0 where it tells none, as is promised of every answer.
#[tactic(auto, unfolding(crate::specs::Items::item_answer_place))]
pub fn item_place(answer: Result<Option<Item>, ItemRefusal>) -> usize
    ensures { result ≡ item_answer_place answer }
{
    match answer {
        Ok(_) => 0,
        Err(refusal) => refusal.place(),
    }
}

// Which item of a schedule has the byte at an offset, counted from 0: an item has three bytes.
#[tactic(auto, unfolding(crate::specs::Items::place_at))]
pub fn place_at(at: usize) -> usize
    ensures { result ≡ place_at at }
{
    at / 3
}

// What is read at a place of a schedule, and the place afterwards: through the reader that holds it, for callers that hold none.
pub fn item_from(schedule: &[u8], at: usize) -> Reading
    ensures { result ≡ read_at schedule.now at }
{
    Reader::new(schedule, at).read()
}
