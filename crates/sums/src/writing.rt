// The sheet as it is written: one row a lock in order, or the line of a refusal, into the start of a lent buffer.
ghost use Rattle.std.specs.Prelude.{◌+◌, ◌≤◌, min, ◌≡◌, [], ◌∷◌, ◌++◌, length, take, drop};
ghost use Rattle.lines.specs.Line.{row, buffer_after, written_told};
ghost use Rattle.sums.specs.Text.{sheet_rows, sheet_writing, buffer_after_sheet};

use crate::{LOCKS, MadeSheet, Sheet, SheetRow};
use lines::TooShort;

// Room for any sheet: 64 rows of at most 105 bytes.
const SHEET_ROOM: usize = 6720;

// Writes a lock's row behind the bytes that are used, and answers with its length. The buffer is not cut: what is lent is promised as a whole.
fn put_row(buffer: &mut [u8], used: usize, lock: usize, numbers: SheetRow) -> usize
    requires { used + 105 ≤ length buffer.old }
    ensures value { result ≡ length (row lock (numbers.busy ∷ numbers.grants ∷ numbers.failed ∷ numbers.share ∷ [])) }
    ensures buffer_after { buffer.new ≡ take used buffer.old ++ buffer_after (drop used buffer.old) (row lock (numbers.busy ∷ numbers.grants ∷ numbers.failed ∷ numbers.share ∷ [])) }
{
    let SheetRow {
        busy,
        grants,
        failed,
        share,
    } = numbers;
    lines::write_row(
        &mut buffer[used..],
        lock as u64,
        &[busy, grants, failed, share],
    )
    .unwrap()
}

// Writes the rows of a sheet's locks in order, and answers with their length.
fn put_rows(sheet: Sheet, buffer: &mut [u8]) -> usize
    requires { 6720 ≤ length buffer.old }
    ensures value { result ≡ length (sheet_rows sheet (min sheet.locks 64)) }
    ensures buffer_after { buffer.new ≡ sheet_rows sheet (min sheet.locks 64) ++ drop (length (sheet_rows sheet (min sheet.locks 64))) buffer.old }
{
    let locks = sheet.locks.min(LOCKS as u64) as usize;
    let mut used = 0;
    for (lock, &numbers) in sheet.rows[..locks].iter().enumerate() {
        used += put_row(buffer, used, lock, numbers);
    }
    used
}

// Writes a sheet, or a refusal, at the buffer's start; or refuses a buffer without room for any sheet and leaves it as it was.
pub fn write_sheet(made: MadeSheet, buffer: &mut [u8]) -> Result<usize, TooShort>
    ensures result_value { written_told result ≡ sheet_writing buffer.old made }
    ensures buffer_after { buffer.new ≡ buffer_after_sheet buffer.old made }
{
    if buffer.len() < SHEET_ROOM {
        return Err(TooShort);
    }
    match made.answer {
        Ok(()) => Ok(put_rows(made.sheet, buffer)),
        Err(refusal) => lines::write_line(buffer, 0, b'Q', &[u64::from(refusal.number()), 0]),
    }
}
