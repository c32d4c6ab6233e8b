// The morning report: the night's text is read from a file a piece at a time, so that a text of any length takes the same memory, and the report is
// written. What it says, and in which order, is morning's; here are the words.
#![tactic(auto)]

mod reading;
mod room;
mod sections;
mod words;

use morning::NO_ENTRY;
use std::io::{Error, Read, Write};

// Room for the rows of so many schedules that are not good.
const ROWS: usize = 16384;

// Why there is no whole report: the reading failed; the writing failed.
#[derive(Clone, Copy, Debug)]
pub enum ReportError {
    NotRead(Error),
    NotWritten(Error),
}

// Reads the night's text to its end from one file, and writes its report to another.
pub fn report<R: Read, W: Write>(input: &mut R, output: &mut W) -> Result<(), ReportError> {
    let mut rows = [NO_ENTRY; ROWS];
    let mut names = room::for_names();
    let read = reading::read_night(input, &mut rows, &mut names).map_err(ReportError::NotRead)?;
    let night = morning::end_night(read, &mut rows);
    sections::write_report(output, night, &rows, &names).map_err(ReportError::NotWritten)
}
