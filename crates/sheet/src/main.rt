// The sheet program: the lines of any number of runs from standard input, as the night program writes them; the monthly sheet to standard output, or
// one line, "0 Q number 0". Text that is no run is told on standard error, and nothing is then written to standard output.
#![tactic(auto)]

ghost use Rattle.std.specs.Prelude.{◌≡◌, true, false, OnOk};
ghost use Rattle.std.specs.Io.KnownBytes.{Appends, Keeps};
ghost use Rattle.gather.specs.Gathering.{fault_of, is_fine, whole_rows};
ghost use Rattle.sums.specs.Sheet.{sheet_told, making};
ghost use Rattle.sums.specs.Text.{sheet_text};
ghost use Rattle.sums.specs.declared.MadeSheet.{MadeSheet};

use gather::Gather;
use std::io;
use std::io::{Error, Write};
use std::process::ExitCode;
use sums::MadeSheet;

// Room for the rows of 401 runs: one more than a sheet takes.
const ROOM: usize = 77794;

// Says how many refused runs are left out, if any.
fn say_refused<W: Write>(told: &mut W, refused: u64) {
    if 0 < refused {
        let _ = writeln!(told, "sheet: refused runs left out: {refused}");
    }
}

// Writes the sheet: its whole text, where no write fails.
fn write_out<W: Write>(out: &mut W, made: MadeSheet) -> io::Result<()>
    ensures { OnOk result (Appends (W.contents out.old) (W.contents out.new) (sheet_text made)) }
{
    let mut buffer = [0u8; 65536];
    let length = sums::write_sheet(made, &mut buffer).unwrap();
    out.write_all(&buffer[..length])
}

// Says what is wrong with the text, or writes its sheet. What cannot be told is left untold.
#[tactic(auto, unfolding(gather::specs::Gathering::is_fine))]
fn answer<W: Write, T: Write>(
    out: &mut W,
    told: &mut T,
    state: Gather,
    rows: &[u64],
) -> io::Result<()>
    ensures sheet { is_fine (fault_of state) ≡ true → OnOk result ((made : MadeSheet) × (sheet_told made ≡ making (whole_rows state rows.now))
        × Appends (W.contents out.old) (W.contents out.new) (sheet_text made)) }
    ensures none { is_fine (fault_of state) ≡ false → Keeps (W.contents out.old) (W.contents out.new) }
{
    match gather::fault_of(state) {
        None => {
            say_refused(told, state.refused);
            write_out(out, gather::sheet_of(state, rows))
        }
        Some(fault) => {
            let _ = told.write_all(b"sheet: ");
            let _ = runsfile::write_fault(told, Some(fault), gather::line_number(state));
            Ok(())
        }
    }
}

// Says on standard error what failed, and ends with the status of a failure.
fn fail(rt: &impl Eprint, what: &str, error: Error) -> ExitCode {
    let _ = eprintln!(rt; "sheet: {what}: {error}");
    ExitCode::FAILURE
}

fn main(rt: HostRuntime) -> ExitCode {
    let mut rows = [0u64; ROOM];
    let state = match runsfile::read_runs(&mut rt.stdin(), &mut rows) {
        Ok(state) => state,
        Err(error) => return fail(&rt, "standard input", error),
    };
    match answer(&mut rt.stdout(), &mut rt.stderr(), state, &rows) {
        Ok(()) => ExitCode::SUCCESS,
        Err(error) => fail(&rt, "standard output", error),
    }
}
