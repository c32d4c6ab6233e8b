// The rows of the runs: the number at a place of a row, its sum over the runs, and the sheet that is made of the sums.
ghost use Rattle.std.specs.Prelude.{ℕ, ◌+◌, ◌*◌, ◌^◌, ◌≤◌, ◌<◌, ◌≡◌};
ghost use Rattle.sums.specs.Sheet.{number_at, run_count, sheet_locks, over_runs, share_of, lock_row, sheet_of, Summable};

use crate::{LOCKS, RUN_WIDTH, Sheet, SheetRow};

// The places of a row: the run's steps, its number of locks, and the first of each 64 for busy steps, grants and N events.
pub(crate) const STEPS_PLACE: usize = 0;

pub(crate) const LOCKS_PLACE: usize = 1;

pub(crate) const BUSY_PLACE: usize = 2;

pub(crate) const GRANTS_PLACE: usize = 66;

pub(crate) const FAILED_PLACE: usize = 130;

// The row behind a sheet's locks.
const EMPTY_ROW: SheetRow = SheetRow {
    busy: 0,
    grants: 0,
    failed: 0,
    share: 0,
};

// The number at a place of a run's row; 0 past the end.
#[tactic(auto, unfolding(crate::specs::Sheet::number_at))]
pub(crate) fn number_at(numbers: &[u64], run: usize, place: usize) -> u64
    requires { run * 194 + place < 2 ^ 64 }
    ensures { result ≡ number_at numbers.now place run }
{
    numbers.get(run * RUN_WIDTH + place).copied().unwrap_or(0)
}

// The locks of the first run; 0 where there is no run.
#[tactic(auto, unfolding(crate::specs::Sheet::sheet_locks))]
pub(crate) fn sheet_locks(numbers: &[u64]) -> u64
    ensures { result ≡ sheet_locks numbers.now }
{
    number_at(numbers, 0, LOCKS_PLACE)
}

// The sum of the numbers at a place of each run's row.
fn over_runs(numbers: &[u64], place: usize) -> u64
    requires { (run_count numbers.now ≤ 400) × (place < 194) × ((run : ℕ) → run < run_count numbers.now → number_at numbers.now place run ≤ 64000000) }
    ensures { result ≡ over_runs numbers.now place }
{
    let runs = numbers.len() / RUN_WIDTH;
    (0..runs).map(|run| number_at(numbers, run, place)).sum()
}

// The busy share in whole parts per million rounded down; 0 where no step ran.
#[tactic(auto, unfolding(crate::specs::Sheet::share_of))]
fn share_of(busy: u64, steps: u64) -> u64
    requires { busy ≤ 25600000000 }
    ensures { result ≡ share_of busy steps }
{
    if steps == 0 {
        0
    } else {
        busy * 1_000_000 / steps
    }
}

// What the sheet says of one of its locks, by the steps of all runs.
fn row_of(numbers: &[u64], lock: usize, steps: u64) -> SheetRow
    requires runs { Summable numbers.now }
    requires lock { lock < sheet_locks numbers.now }
    requires steps { steps ≡ over_runs numbers.now 0 }
    ensures { result ≡ lock_row numbers.now lock }
{
    let busy = over_runs(numbers, BUSY_PLACE + lock);
    let grants = over_runs(numbers, GRANTS_PLACE + lock);
    let failed = over_runs(numbers, FAILED_PLACE + lock);
    let share = share_of(busy, steps);
    SheetRow {
        busy,
        grants,
        failed,
        share,
    }
}

// The sheet of the runs, all of them in range. Of no runs it is the empty sheet.
pub(crate) fn sheet_of(numbers: &[u64]) -> Sheet
    requires { Summable numbers.now }
    ensures { result ≡ sheet_of numbers.now }
{
    let locks = sheet_locks(numbers);
    let steps = over_runs(numbers, STEPS_PLACE);
    let mut rows = [EMPTY_ROW; LOCKS];
    for lock in 0..locks as usize {
        rows[lock] = row_of(numbers, lock, steps);
    }
    Sheet { locks, rows }
}
