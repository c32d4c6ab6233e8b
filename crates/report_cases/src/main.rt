// Texts of nights and their reports: for each argument NAME the report of NAME.txt is written behind a line with the name.
#![tactic(auto)]

use casefiles::Case;
use reporting::ReportError;
use std::env::Env;
use std::io;
use std::rt::Files;

// Writes that something went wrong, if it did.
fn say(rt: &impl Print, reported: Result<(), ReportError>) -> io::Result<()> {
    match reported {
        Ok(()) => Ok(()),
        Err(ReportError::NotRead(_)) => println!(rt; "not read"),
        Err(ReportError::NotWritten(_)) => println!(rt; "not written"),
    }
}

// Writes the name of a case in a line of its own: its argument, or nothing where that has no room.
fn write_name<R: Env + Print>(rt: &R, argument: usize) -> io::Result<()> {
    let mut name = [0u8; 4096];
    let length = rt.arg(argument, &mut name).unwrap_or(0);
    print!(rt; "==== ")?;
    rt.write_all(&name[..length])?;
    println!(rt)
}

// Writes one case.
fn write_case<R: Env + Files + Print>(case: &Case<'_, R>) -> io::Result<()> {
    write_name(case.rt, case.argument)?;
    let reported = match case.open(b".txt") {
        Ok(mut file) => reporting::report(&mut file, &mut io::writer(case.rt)),
        Err(error) => Err(ReportError::NotRead(error)),
    };
    say(case.rt, reported)
}

fn main(rt: HostRuntime) -> io::Result<()> {
    let count = casefiles::arg_count(&rt);
    for argument in 1..count {
        write_case(&Case { rt: &rt, argument })?;
    }
    Ok(())
}
