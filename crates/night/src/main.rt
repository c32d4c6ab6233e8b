// The night program: a night file from standard input, the lines of its run to standard output. It reads and writes; the
// model decides all else.
#![tactic(auto)]

ghost use Rattle.std.specs.Prelude.{OnOk};
ghost use Rattle.std.specs.Io.KnownBytes.{Appends};
ghost use Rattle.course.specs.Whole.{course};
ghost use Rattle.run.specs.Filling.{texts};
ghost use Rattle.run.specs.Outcomes.{file_text};

use course::Run;
use run::NIGHT_CEILING;
use std::io::{Error, Result, Write};
use std::process::ExitCode;

// Writes the lines of a run, a buffer at a time. A line has at most 107 bytes, so every buffer takes some. Where no write fails, they are all lines of
// the run, to the one at which it is over, and nothing else.
fn write_lines<W: Write>(out: &mut W, start: Run, schedule: &[u8]) -> Result<()>
    ensures { OnOk result (Appends (W.contents out.old) (W.contents out.new) (texts (course 1000000 schedule.now start).lines)) }
{
    let mut buffer = [0u8; 65536];
    let mut run = start;
    loop {
        let filled = run::fill(run, schedule, NIGHT_CEILING, &mut buffer);
        out.write_all(&buffer[..filled.used])?;
        run = filled.run;
        if run.over {
            return Ok(());
        }
    }
}

// Writes the lines of a night file.
#[tactic(auto, unfolding(run::specs::Outcomes::file_text, run::specs::Outcomes::file_course))]
fn write_file<W: Write>(out: &mut W, file: &[u8]) -> Result<()>
    ensures { OnOk result (Appends (W.contents out.old) (W.contents out.new) (file_text 1000000 file.now)) }
{
    write_lines(out, course::begin(file), nightfile::schedule_part(file))
}

// Says on standard error what failed, and ends with the status of a failure.
fn fail(rt: &impl Eprint, what: &str, error: Error) -> ExitCode {
    let _ = eprintln!(rt; "{what}: {error}");
    ExitCode::FAILURE
}

// A file of more than 65,535 bytes fills the buffer, and the model refuses it.
fn main(rt: HostRuntime) -> ExitCode {
    let mut buffer = [0u8; 65536];
    let input = files::read_all(&mut rt.stdin(), &mut buffer);
    if let Some(error) = input.failed {
        return fail(&rt, "standard input", error);
    }
    match write_file(&mut rt.stdout(), &buffer[..input.length]) {
        Ok(()) => ExitCode::SUCCESS,
        Err(error) => fail(&rt, "standard output", error),
    }
}
