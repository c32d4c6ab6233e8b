// The item reader that holds the schedule's bytes and the place reached.
ghost use Rattle.std.specs.Prelude.{◌≡◌};
ghost use Rattle.items.specs.Items.{read_at};

use crate::{Reader, Reading};

impl<'a> Reader<'a> {
    // A reader at a place of a schedule.
    pub fn new(schedule: &'a [u8], at: usize) -> Reader<'a>
        ensures { (result.schedule ≡ schedule.entry) × (result.at ≡ at) }
    {
        Reader { schedule, at }
    }

    // What is read at its place, and the place afterwards.
    pub fn read(self) -> Reading
        ensures { result ≡ read_at self.entry.schedule.now self.entry.at }
    {
        crate::lent::read_at(self.schedule, self.at)
    }

    // The reader at the place after that: past the item, or where it is if none is found.
    pub fn moved_on(self) -> Reader<'a>
        ensures { (result.schedule ≡ self.entry.schedule) × (result.at ≡ (read_at self.entry.schedule.now self.entry.at).at) }
    {
        Reader {
            at: self.read().at,
            ..self
        }
    }
}
