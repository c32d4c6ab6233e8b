// The runs of a file: its text is read and gathered a piece at a time, so that a file of any length takes the same memory; and which line of a text
// is no part of a run.
#![tactic(auto)]

ghost use Rattle.std.specs.Prelude.{◌≡◌, IfOk, IfSome, OnOk, refl};
ghost use Rattle.std.proofs.Common.{◌∙◌};
ghost use Rattle.gather.specs.Gathering.{start_gather, after_all, rows_after_all};
ghost use Rattle.runsfile.specs.Taken.{Taken, taken_none, taken_more};

use files::Intake;
use gather::{Fault, Gather};
use std::io::{Read, Result, Write};

// The runs of a text, a piece at a time: how their gathering stands, and their rows.
#[derive(Drop)]
struct Runs<'a> {
    state: Gather,
    rows: &'a mut [u64],
}

impl Intake for Runs<'_> {
    ghost taken = { λ before text after. (after.rows.ghost_name ≡ before.rows.ghost_name)
        × Taken before.state before.rows.now text after.state after.rows.now };

    fn take(&mut self, piece: &[u8]) {
        self.state = gather::gather_text(self.state, piece, self.rows);
    }

    ghost taken_none = { λ runs. (refl, taken_none runs.state runs.rows.now) };

    ghost taken_more = { λ before between after text more first second. (
      second.0 ∙ first.0,
      taken_more before.state between.state after.state before.rows.now between.rows.now after.rows.now text more first.1 second.1,
    ) };
}

// Reads to the end of the file, and answers how the gathering then stands. Of a reader whose bytes are known the promise says that, without an error, all
// of them are gathered, in whatever pieces they came.
pub fn read_runs<R: Read>(reader: &mut R, rows: &mut [u64]) -> Result<Gather>
    ensures state { IfOk result (λ state. IfSome (R.remaining reader.old) (λ text. state ≡ after_all start_gather text)) }
    ensures rows_after { OnOk result (IfSome (R.remaining reader.old) (λ text. rows.new ≡ rows_after_all start_gather text rows.old)) }
{
    let state = gather::start_gather();
    let mut runs = Runs { state, rows };
    files::read_pieces(reader, &mut runs)?;
    Ok(runs.state)
}

// Writes which line of the text is no part of a run, by its number from 1, and what is wrong, if anything is.
pub fn write_fault<W: Write>(out: &mut W, fault: Option<Fault>, line: u64) -> Result<()> {
    match fault {
        None => writeln!(out, "line {line}: nothing is wrong"),
        Some(fault) => writeln!(out, "line {line}: {fault}"),
    }
}
