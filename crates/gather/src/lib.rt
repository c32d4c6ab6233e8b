// The runs of a text, gathered into rows of numbers: the text has the lines of any number of runs, one after the other, as the night program
// writes them, and comes in pieces of any size. The memory is fixed: what is read of the line at hand, some counts, and the rows of 401 runs in a
// lent slice, into which a run's numbers are put line by line. The slice stays one of numbers, since this layout is what callers are promised
// (docs/FORMAT.md).
#![tactic(auto, unfolding(crate::specs::Gathering::start_gather, crate::specs::Gathering::is_fine, crate::specs::Gathering::after_byte, crate::specs::Gathering::rows_after_byte, crate::specs::Gathering::is_steps, crate::specs::Gathering::at_line_start, crate::specs::Gathering::end_fault, crate::specs::Gathering::fault_of, crate::specs::Gathering::line_number, crate::specs::Gathering::whole_rows))]

mod placing;
mod standing;

ghost use Rattle.std.specs.Prelude.{◌≡◌};
ghost use Rattle.sums.specs.Sheet.{sheet_told, making};
ghost use Rattle.gather.specs.Gathering.{start_gather, is_fine, after_byte, rows_after_byte, after_all, rows_after_all, at_line_start, fault_of, line_number, whole_rows};

use linereader::{Part, Scan};
pub use standing::{after_part, more};
use std::fmt;
use sums::{MadeSheet, RUN_WIDTH};

// One row more than a sheet takes.
pub const ROWS_KEPT: u64 = 401;

// What is wrong in a text that is no run: no line of the night program; an action or an event behind an H line; an H line that is not the next
// lock's; a Q line inside a run; the last line without a newline; a run without its last line.
#[derive(Clone, Copy, Debug, PartialEq, Eq)]
pub enum Fault {
    NoLine,
    DeedBehindLock,
    LockOutOfOrder,
    RefusalInside,
    NoNewline,
    NoLastLine,
}

impl fmt::Display for Fault {
    fn fmt<W: fmt::Write>(&self, f: &mut fmt::Formatter<W>) -> fmt::Result {
        f.write_str(match self {
            Fault::NoLine => "not a line that the night program writes",
            Fault::DeedBehindLock => "an action or an event behind an H line",
            Fault::LockOutOfOrder => "an H line that is not the next lock's",
            Fault::RefusalInside => "a Q line inside a run",
            Fault::NoNewline => "the text ends inside a line",
            Fault::NoLastLine => "the text ends inside a run, before its E or C line",
        })
    }
}

// How the gathering stands: what is read of the line at hand, the lines before it, whether a run has begun, its H lines so far, the whole runs (at
// most 401), the refused ones, and the first fault. `inside` and `locks` are a flag and a number, and no Option: `gather_text` and the functions beside it
// are promised of every state, also of one with H lines counted and no run begun.
#[derive(Clone, Copy, Debug, PartialEq, Eq)]
pub struct Gather {
    pub scan: Scan,
    pub lines: u64,
    pub inside: bool,
    pub locks: u64,
    pub runs: u64,
    pub refused: u64,
    pub fault: Option<Fault>,
}

// At the start of the text.
pub fn start_gather() -> Gather
    ensures { result ≡ start_gather }
{
    Gather {
        scan: linereader::start_scan(),
        lines: 0,
        inside: false,
        locks: 0,
        runs: 0,
        refused: 0,
        fault: None,
    }
}

// Whether nothing is wrong. It stays beside `is_none`, since a statement of settled names it.
pub fn is_fine(fault: Option<Fault>) -> bool
    ensures { result ≡ is_fine fault }
{
    fault.is_none()
}

// One byte more of the text.
fn gather_byte(state: Gather, byte: u8, rows: &mut [u64]) -> Gather
    ensures value { result ≡ after_byte state byte }
    ensures rows_after { rows.new ≡ rows_after_byte state byte rows.old }
{
    if state.fault.is_some() {
        return state;
    }
    let scan = linereader::scan_byte(state.scan, byte);
    placing::put_part(scan, state, rows);
    standing::after_part(scan.part, scan, state)
}

// A piece of the text. The promise is about every piece in every state, so in whatever pieces a text comes, the same is gathered. The state goes by value
// and the rows beside it, since the promise tells each by itself.
pub fn gather_text(start: Gather, text: &[u8], rows: &mut [u64]) -> Gather
    ensures value { result ≡ after_all start text.now }
    ensures rows_after { rows.new ≡ rows_after_all start text.now rows.old }
{
    let mut state = start;
    for &byte in text {
        state = gather_byte(state, byte, rows);
    }
    state
}

// Whether the reading is at the start of a line.
fn at_line_start(scan: Scan) -> bool
    ensures { result ≡ at_line_start scan.part scan.begun }
{
    matches!(scan.part, Part::Steps) && !scan.begun
}

// What is wrong with the whole text.
pub fn fault_of(state: Gather) -> Option<Fault>
    ensures { result ≡ fault_of state }
{
    if state.fault.is_some() {
        return state.fault;
    }
    if !at_line_start(state.scan) {
        return Some(Fault::NoNewline);
    }
    if state.inside {
        return Some(Fault::NoLastLine);
    }
    None
}

// The line that the reading is at, by its number from 1.
pub fn line_number(state: Gather) -> u64
    ensures { result ≡ line_number state }
{
    more(state.lines)
}

// The sheet of the whole runs.
pub fn sheet_of(state: Gather, rows: &[u64]) -> MadeSheet
    ensures { sheet_told result ≡ making (whole_rows state rows.now) }
{
    let kept = state.runs.min(ROWS_KEPT) as usize * RUN_WIDTH;
    sums::make_sheet(&rows[..kept.min(rows.len())])
}
