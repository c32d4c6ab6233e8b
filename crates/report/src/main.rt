// The report program: the lines of a night's schedules from standard input, each behind a head line that names its file; the morning report to standard
// output. What goes wrong is told on standard error, and the report's last line, which begins with GOOD, is then missing or not to be trusted.
#![tactic(auto)]

use reporting::ReportError;
use std::io::Error;
use std::process::ExitCode;

// Says on standard error what failed, and ends with the status of a failure.
fn fail(rt: &impl Eprint, what: &str, error: Error) -> ExitCode {
    let _ = eprintln!(rt; "report: {what}: {error}");
    ExitCode::FAILURE
}

fn main(rt: HostRuntime) -> ExitCode {
    match reporting::report(&mut rt.stdin(), &mut rt.stdout()) {
        Ok(()) => ExitCode::SUCCESS,
        Err(ReportError::NotRead(error)) => fail(&rt, "standard input", error),
        Err(ReportError::NotWritten(error)) => fail(&rt, "standard output", error),
    }
}
