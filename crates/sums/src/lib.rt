// The monthly sheet: from the numbers of up to 400 runs, per lock and over all runs, busy steps, grants, N events and the busy share in parts
// per million; or 24, 25, 26. The runs come as a lent slice of numbers, one row of 194 a run: the run's steps, its number of locks, then 64
// places each for busy steps, grants and N events, lock 0 first. Places behind a run's locks are not read. The slice stays a slice and not a
// type of its own, since this layout is what callers of the crate are promised (docs/FORMAT.md).
#![tactic(auto)]

mod refusals;
mod rows;
mod writing;

ghost use Rattle.std.specs.Prelude.{◌≡◌};
ghost use Rattle.sums.specs.Sheet.{sheet_of, Summable, refusal_number, sheet_answer_number, sheet_told, making};

pub use writing::write_sheet;

// The numbers of a run.
pub const RUN_WIDTH: usize = 194;

// The places kept for locks.
pub const LOCKS: usize = 64;

// The numbers of 400 runs.
const MOST_NUMBERS: usize = 400 * RUN_WIDTH;

// What the sheet says of a lock.
#[derive(Clone, Copy, Debug, PartialEq, Eq)]
pub struct SheetRow {
    pub busy: u64,
    pub grants: u64,
    pub failed: u64,
    pub share: u64,
}

// A row for each place kept for a lock; `locks` says how many of them are the sheet's. An array with a count, since the memory is fixed.
#[derive(Clone, Copy)]
pub struct Sheet {
    pub locks: u64,
    pub rows: [SheetRow; LOCKS],
}

// Why runs are refused: 24, 25, 26.
#[derive(Clone, Copy, Debug, PartialEq, Eq)]
pub enum SheetRefusal {
    TooManyRuns,
    LocksWrong,
    OutOfRange,
}

impl SheetRefusal {
    // Its number in 02.
    #[tactic(auto, unfolding(crate::specs::Sheet::refusal_number))]
    pub fn number(self) -> u8
        ensures { result ≡ refusal_number self }
    {
        match self {
            SheetRefusal::TooManyRuns => 24,
            SheetRefusal::LocksWrong => 25,
            SheetRefusal::OutOfRange => 26,
        }
    }
}

// The answer with its sheet, which is empty where the runs are refused. The sheet stands beside the answer and not in it: `make_sheet` is promised to
// give one for every input, and of a refusal the one of no runs.
#[derive(Clone, Copy)]
pub struct MadeSheet {
    pub answer: Result<(), SheetRefusal>,
    pub sheet: Sheet,
}

// The number of an answer in 02; 0 where the sheet was made.
#[tactic(auto, unfolding(crate::specs::Sheet::sheet_answer_number))]
pub fn sheet_number(answer: Result<(), SheetRefusal>) -> u8
    ensures { result ≡ sheet_answer_number answer }
{
    match answer {
        Ok(()) => 0,
        Err(refusal) => refusal.number(),
    }
}

// An answer with the sheet of these runs beside it.
#[tactic(auto, unfolding(crate::specs::Sheet::sheet_told))]
fn with_sheet(answer: Result<(), SheetRefusal>, numbers: &[u64]) -> MadeSheet
    requires { Summable numbers.now }
    ensures { sheet_told result ≡ record { number = sheet_answer_number answer; sheet = sheet_of numbers.now } }
{
    let sheet = rows::sheet_of(numbers);
    MadeSheet { answer, sheet }
}

// The sheet of the runs; that of no runs where they are refused.
pub fn make_sheet(numbers: &[u64]) -> MadeSheet
    ensures { sheet_told result ≡ making numbers.now }
{
    let none = &numbers[..0];
    if MOST_NUMBERS < numbers.len() {
        return with_sheet(Err(SheetRefusal::TooManyRuns), none);
    }
    if !refusals::locks_right(numbers) {
        return with_sheet(Err(SheetRefusal::LocksWrong), none);
    }
    if !refusals::runs_in_range(numbers) {
        return with_sheet(Err(SheetRefusal::OutOfRange), none);
    }
    with_sheet(Ok(()), numbers)
}
