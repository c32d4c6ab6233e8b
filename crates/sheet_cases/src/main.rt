// Texts of runs and their sheets: for each argument NAME the text NAME.txt is gathered and its sheet made. Where NAME.out stands, what would be
// written must be its bytes; where NAME.bad stands instead, the text must be no run, and the line that is named is shown. The files of data/ were
// made by another model of 02's item 13.
#![tactic(auto)]

use casefiles::Case;
use gather::Gather;
use std::env::Env;
use std::io;
use std::io::Result;
use std::rt::Files;

// Room for the rows of 401 runs.
const ROOM: usize = 77794;

// Whether the sheet of a text is written as expected.
fn sheet_agrees(state: Gather, rows: &[u64], expected: &[u8]) -> bool {
    let mut buffer = [0u8; 65536];
    let written = sums::write_sheet(gather::sheet_of(state, rows), &mut buffer);
    written.is_ok_and(|length| buffer.get(..length) == Some(expected))
}

// A text that is a text of runs: whether its sheet is the one expected. An expectation that fills its buffer may have more, and differs.
fn runs_agree<R: Env + Files>(case: &Case<'_, R>, state: Gather, rows: &[u64]) -> bool {
    let mut buffer = [0u8; 65536];
    let expected = case.read(b".out", &mut buffer);
    expected.failed.is_none()
        && expected.length < buffer.len()
        && sheet_agrees(state, rows, &buffer[..expected.length])
}

// Shows how a case ended whose text has been read, and answers with it; of a text that is no run also the line that is named.
fn show_read<R: Env + Files + Print>(
    case: &Case<'_, R>,
    state: Gather,
    rows: &[u64],
) -> Result<bool> {
    let Some(fault) = gather::fault_of(state) else {
        let agrees = runs_agree(case, state, rows);
        case.show(agrees)?;
        return Ok(agrees);
    };
    let expected = case.open(b".bad").is_ok();
    case.show(expected)?;
    print!(case.rt; "    ")?;
    runsfile::write_fault(
        &mut io::writer(case.rt),
        Some(fault),
        gather::line_number(state),
    )?;
    Ok(expected)
}

// Reads the text of a case.
fn read_text<R: Env + Files>(case: &Case<'_, R>, rows: &mut [u64]) -> Result<Gather> {
    let mut file = case.open(b".txt")?;
    runsfile::read_runs(&mut file, rows)
}

// Shows how one case ended, and answers with it. What cannot be opened or read differs.
fn show_case<R: Env + Files + Print>(case: &Case<'_, R>) -> Result<bool> {
    let mut rows = [0u64; ROOM];
    match read_text(case, &mut rows) {
        Ok(state) => show_read(case, state, &rows),
        Err(_) => {
            case.show(false)?;
            Ok(false)
        }
    }
}

// As in cases: one function over a closure would be a new public one with nothing to promise.
fn main(rt: HostRuntime) -> Result<()> {
    let count = casefiles::arg_count(&rt);
    let mut agreed = 0;
    for argument in 1..count {
        if show_case(&Case { rt: &rt, argument })? {
            agreed += 1;
        }
    }
    casefiles::show_total(&rt, agreed, count.saturating_sub(1))
}
