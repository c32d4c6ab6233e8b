// How the reading stands inside a schedule's text, and inside its name.
#![tactic(auto, unfolding(crate::specs::Reading::hand_begun, crate::specs::Reading::reading, crate::specs::Reading::line_byte, crate::specs::Reading::naming, crate::specs::Reading::shown, crate::specs::Reading::name_byte, crate::specs::Reading::names_after_name))]

ghost use Rattle.std.specs.Prelude.{◌≡◌, length};
ghost use Rattle.morning.specs.Reading.{hand_begun, line_byte, shown, name_byte, names_after_name};

use crate::{AtHand, Night, Place};

// A schedule begins: its name starts where the names end.
pub(crate) fn hand_begun(used: usize) -> AtHand
    ensures { result ≡ hand_begun used }
{
    AtHand {
        watch: verdict::start_watch(),
        start: used,
        fits: true,
    }
}

// A byte of a name as it is shown: a question mark for a control byte.
fn shown(byte: u8) -> u8
    ensures { result ≡ shown byte }
{
    if byte.is_ascii_control() { b'?' } else { byte }
}

impl Night {
    // One byte more of the schedule's text; a schedule is at hand.
    pub(crate) fn line_byte(&mut self, byte: u8)
        ensures { self.new ≡ line_byte self.old byte }
    {
        self.place = if byte == b'\n' {
            Place::LineStart
        } else {
            Place::InLine
        };
        self.begun = true;
        self.hand.watch = verdict::watch_byte(self.hand.watch, byte);
    }

    // One byte more of a name: it is kept if there is room, and a newline ends the name.
    pub(crate) fn name_byte(&mut self, byte: u8, names: &mut [u8])
        ensures night_after { self.new ≡ name_byte (length names.old) self.old byte }
        ensures names_after { names.new ≡ names_after_name self.old byte names.old }
    {
        if byte == b'\n' {
            self.place = Place::LineStart;
        } else if self.used < names.len() {
            names[self.used] = shown(byte);
            self.place = Place::InName;
            self.used += 1;
        } else {
            self.place = Place::InName;
            self.hand.fits = false;
        }
    }
}
