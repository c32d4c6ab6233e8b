// What runs are refused for beside their number: their locks (25), and steps and counts out of range (26).
ghost use Rattle.std.specs.Prelude.{◌+◌, ◌*◌, ◌^◌, ◌≤◌, ◌<◌, ◌≡◌, length};
ghost use Rattle.sums.specs.Sheet.{sheet_locks, locks_alike, locks_right, lock_in_range, run_in_range, runs_in_range};

use crate::{RUN_WIDTH, rows};

// Whether a run's locks are 1 to 64, and as many as the first run's.
#[tactic(auto, unfolding(crate::specs::Sheet::locks_alike))]
fn locks_alike(numbers: &[u64], run: usize) -> bool
    requires { run * 194 + 194 ≤ 2 ^ 64 }
    ensures { result ≡ locks_alike numbers.now run }
{
    let locks = rows::number_at(numbers, run, rows::LOCKS_PLACE);
    (1..=64).contains(&locks) && locks == rows::sheet_locks(numbers)
}

// Whether the rows are whole and the locks right (25).
#[tactic(auto, unfolding(crate::specs::Sheet::locks_right))]
pub(crate) fn locks_right(numbers: &[u64]) -> bool
    ensures { result ≡ locks_right numbers.now }
{
    let runs = numbers.len() / RUN_WIDTH;
    numbers.len() % RUN_WIDTH == 0 && (0..runs).all(|run| locks_alike(numbers, run))
}

// Whether a lock's busy steps are at most its run's steps, and its grants and N events at most 64 times those steps.
#[tactic(auto, unfolding(crate::specs::Sheet::lock_in_range))]
fn lock_in_range(numbers: &[u64], run: usize, lock: usize) -> bool
    requires { (run ≤ 400) × (lock < 64) }
    ensures { result ≡ lock_in_range numbers.now run lock }
{
    let steps = rows::number_at(numbers, run, rows::STEPS_PLACE);
    let busy = rows::number_at(numbers, run, rows::BUSY_PLACE + lock);
    let grants = rows::number_at(numbers, run, rows::GRANTS_PLACE + lock);
    let failed = rows::number_at(numbers, run, rows::FAILED_PLACE + lock);
    let most = steps.saturating_mul(64);
    busy <= steps && grants <= most && failed <= most
}

// Whether a run's steps are at most 1,000,000, and each of its locks in range.
fn run_in_range(numbers: &[u64], run: usize) -> bool
    requires { (run ≤ 400) × (sheet_locks numbers.now ≤ 64) }
    ensures { result ≡ run_in_range numbers.now run }
{
    let steps = rows::number_at(numbers, run, rows::STEPS_PLACE);
    let locks = rows::sheet_locks(numbers) as usize;
    steps <= 1_000_000 && (0..locks).all(|lock| lock_in_range(numbers, run, lock))
}

// Whether each run is in range (26).
pub(crate) fn runs_in_range(numbers: &[u64]) -> bool
    requires { (length numbers.now ≤ 77600) × (sheet_locks numbers.now ≤ 64) }
    ensures { result ≡ runs_in_range numbers.now }
{
    let runs = numbers.len() / RUN_WIDTH;
    (0..runs).all(|run| run_in_range(numbers, run))
}
