// The rows of numbers after a line: what it tells is put into the row of the run at hand.
#![tactic(auto, unfolding(crate::specs::Gathering::first_of, crate::specs::Gathering::put, crate::specs::Gathering::lock_rows, crate::specs::Gathering::last_rows, crate::specs::Gathering::rows_after_line, crate::specs::Gathering::rows_after_part))]

ghost use Rattle.std.specs.Prelude.{◌<◌, ◌≡◌};
ghost use Rattle.linereader.specs.Reading.{kind_of};
ghost use Rattle.gather.specs.Gathering.{put, lock_rows, last_rows, rows_after_line, rows_after_part};

use crate::{Gather, ROWS_KEPT};
use linereader::{LineKind, Part, Scan};
use sums::RUN_WIDTH;

// Puts a number at a place of a run's row. A place that the rows do not have is left. By index: of what `get_mut` lends a proof knows only the length.
fn put(rows: &mut [u64], run: u64, place: u64, number: u64)
    requires { (run < 401) × (place < 194) }
    ensures { rows.new ≡ put run place number rows.old }
{
    let at = run as usize * RUN_WIDTH + place as usize;
    if at < rows.len() {
        rows[at] = number;
    }
}

// Puts a lock's busy steps, grants and N events; a lock above 63 has no place.
fn put_lock(numbers: [u64; 4], run: u64, lock: u64, rows: &mut [u64])
    ensures { rows.new ≡ lock_rows numbers run lock rows.old }
{
    if run < ROWS_KEPT && lock < 64 {
        let [_, busy, grants, failed] = numbers;
        put(rows, run, 2 + lock, busy);
        put(rows, run, 66 + lock, grants);
        put(rows, run, 130 + lock, failed);
    }
}

// Puts a run's steps and its locks.
fn put_last(steps: u64, run: u64, locks: u64, rows: &mut [u64])
    ensures { rows.new ≡ last_rows steps run locks rows.old }
{
    if run < ROWS_KEPT {
        put(rows, run, 0, steps);
        put(rows, run, 1, locks);
    }
}

// Puts what a whole line tells.
fn put_line(scan: Scan, state: Gather, rows: &mut [u64])
    ensures { rows.new ≡ rows_after_line (kind_of scan.letter) scan state rows.old }
{
    match linereader::kind_of(scan.letter) {
        Some(LineKind::Lock) if state.is_next_lock(scan.numbers[0]) => {
            put_lock(scan.numbers, state.runs, state.locks, rows)
        }
        Some(LineKind::Last) => put_last(scan.steps, state.runs, state.locks, rows),
        _ => {}
    }
}

// Puts what is told where a line is whole.
pub(crate) fn put_part(scan: Scan, state: Gather, rows: &mut [u64])
    ensures { rows.new ≡ rows_after_part scan.part scan state rows.old }
{
    if matches!(scan.part, Part::Whole) {
        put_line(scan, state, rows);
    }
}
