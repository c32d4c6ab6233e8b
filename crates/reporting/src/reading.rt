// The night's text, read from a file a piece at a time.
ghost use Rattle.std.specs.Prelude.{◌≡◌, IfOk, IfSome, OnOk, length, refl};
ghost use Rattle.std.proofs.Common.{◌∙◌};
ghost use Rattle.morning.specs.Reading.{start_night, after_all, rows_after_all, names_after_all};
ghost use Rattle.reporting.specs.Taken.{Taken, taken_none, taken_more};

use files::Intake;
use morning::{Entry, Night};
use std::io::{Read, Result};

// The schedules of a night's text, a piece at a time: how the night stands, their rows and their names.
#[derive(Drop)]
struct Schedules<'a> {
    night: Night,
    rows: &'a mut [Entry],
    names: &'a mut [u8],
}

impl Intake for Schedules<'_> {
    ghost taken = { λ before text after. (after.rows.ghost_name ≡ before.rows.ghost_name) × (after.names.ghost_name ≡ before.names.ghost_name)
        × Taken before.night before.rows.now before.names.now text after.night after.rows.now after.names.now };

    fn take(&mut self, piece: &[u8]) {
        self.night = morning::night_text(self.night, piece, self.rows, self.names);
    }

    ghost taken_none = { λ all. (refl, refl, taken_none all.night all.rows.now all.names.now) };

    ghost taken_more = { λ before between after text more first second. (
      second.0 ∙ first.0,
      second.1 ∙ first.1,
      taken_more before.night between.night after.night before.rows.now between.rows.now after.rows.now before.names.now between.names.now after.names.now text more first.2 second.2,
    ) };
}

// Reads to the end of the file, and answers how the night then stands. Of a reader whose bytes are known the promise says that, without an error, all of
// them are taken in, in whatever pieces they came.
pub(crate) fn read_night<R: Read>(
    reader: &mut R,
    rows: &mut [Entry],
    names: &mut [u8],
) -> Result<Night>
    ensures night { IfOk result (λ night. IfSome (R.remaining reader.old)
        (λ text. night ≡ after_all (length rows.old) (length names.old) start_night text)) }
    ensures rows_after { OnOk result (IfSome (R.remaining reader.old)
        (λ text. rows.new ≡ rows_after_all (length names.old) start_night text rows.old)) }
    ensures names_after { OnOk result (IfSome (R.remaining reader.old)
        (λ text. names.new ≡ names_after_all (length rows.old) start_night text names.old)) }
{
    let night = morning::start_night();
    let mut schedules = Schedules { night, rows, names };
    files::read_pieces(reader, &mut schedules)?;
    Ok(schedules.night)
}
