// The schedules of a night, each with its verdict: the text has for each schedule a head line, `>` and the file's name, and behind it the lines that the
// night program wrote of it. It comes in pieces of any size. The memory is fixed: the counts of all verdicts, and for each schedule that is not good a
// row and its name, in two lent slices. A schedule for which there is no room is still counted.
#![tactic(auto)]

mod closing;
mod counts;
mod entries;
mod standing;

ghost use Rattle.std.specs.Prelude.{◌≡◌, length};
ghost use Rattle.morning.specs.Reading.{start_night, names_after_byte, rows_after_byte, after_byte, after_all, rows_after_all, names_after_all};

pub use closing::end_night;
pub use counts::{all_of, bad_of, looked_at_of};
pub use entries::{NO_ENTRY, entry_at, first_entry, next_entry};
use verdict::{Noted, Watch};

// Where the reading stands: at the start of a line, inside a line of a run, inside the name of a head line.
#[derive(Clone, Copy, Debug, PartialEq, Eq)]
pub enum Place {
    LineStart,
    InLine,
    InName,
}

// The schedule at hand: what is read of its text, where its name starts, and whether there was room for it.
#[derive(Clone, Copy, Debug, PartialEq, Eq)]
pub struct AtHand {
    pub watch: Watch,
    pub start: usize,
    pub fits: bool,
}

// How the reading of a night stands: the place; whether a schedule is at hand, and which; where the names end; how many schedules are listed, how many
// are not for want of room, and how many have each verdict. A flag beside the schedule, and no Option: `night_text` is promised of every state, and behind
// the end of a night it goes on with what was read of the schedule that has ended.
#[derive(Clone, Copy, Debug, PartialEq, Eq)]
pub struct Night {
    pub place: Place,
    pub begun: bool,
    pub hand: AtHand,
    pub used: usize,
    pub listed: usize,
    pub unlisted: u64,
    pub counts: [u64; 7],
}

// A listed schedule, in the order of the report: its verdict's number and its place among the rows. Any number: `next_entry` is promised of every cursor.
#[derive(Clone, Copy, Debug, PartialEq, Eq)]
pub struct Cursor {
    pub verdict: u64,
    pub place: usize,
}

// A listed schedule's row: its verdict's number, the lines that it rests on, and where its name starts and ends. Any number: `entry_at`, `first_entry`
// and `next_entry` are promised of every row.
#[derive(Clone, Copy, Debug, PartialEq, Eq)]
pub struct Entry {
    pub verdict: u64,
    pub noted: Noted,
    pub start: usize,
    pub end: usize,
}

// At the start of a night's text.
#[tactic(auto, unfolding(crate::specs::Reading::start_night))]
pub fn start_night() -> Night
    ensures { result ≡ start_night }
{
    Night {
        place: Place::LineStart,
        begun: false,
        hand: standing::hand_begun(0),
        used: 0,
        listed: 0,
        unlisted: 0,
        counts: [0; 7],
    }
}

// One byte more of the text.
#[tactic(auto, unfolding(crate::specs::Reading::after_byte, crate::specs::Reading::after_byte_in, crate::specs::Reading::rows_after_byte, crate::specs::Reading::rows_after_byte_in, crate::specs::Reading::names_after_byte, crate::specs::Reading::names_after_byte_in))]
fn night_byte(state: &mut Night, byte: u8, rows: &mut [Entry], names: &mut [u8])
    ensures night_after { state.new ≡ after_byte (length rows.old) (length names.old) state.old byte }
    ensures rows_after { rows.new ≡ rows_after_byte state.old byte rows.old }
    ensures names_after { names.new ≡ names_after_byte state.old byte names.old }
{
    match state.place {
        Place::LineStart => state.on_line_start(byte, rows),
        Place::InLine => state.line_byte(byte),
        Place::InName => state.name_byte(byte, names),
    }
}

// A piece of the text. The promise is about every piece in every state, so in whatever pieces a text comes, the same is told. The state goes by value and
// what is lent beside it, since the promise tells each by itself.
pub fn night_text(start: Night, text: &[u8], rows: &mut [Entry], names: &mut [u8]) -> Night
    ensures value { result ≡ after_all (length rows.old) (length names.old) start text.now }
    ensures rows_after { rows.new ≡ rows_after_all (length names.old) start text.now rows.old }
    ensures names_after { names.new ≡ names_after_all (length rows.old) start text.now names.old }
{
    let mut state = start;
    for &byte in text {
        night_byte(&mut state, byte, rows, names);
    }
    state
}
