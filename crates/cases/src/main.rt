// Night files and their lines: for each argument NAME the night file NAME.bin is run, and its lines are compared with those of
// NAME.txt, every byte and the length. The lines of data/ were written by another model of 01.
#![tactic(auto)]

mod comparing;

use casefiles::Case;
use std::env::Env;
use std::io::Result;
use std::rt::Files;

// Whether a case agrees. What cannot be opened or read differs; where that is the night file, the text is not opened. So does a text
// that fills its buffer, since there may be more of it.
fn case_agrees<R: Env + Files>(case: &Case<'_, R>) -> bool {
    let mut file_buffer = [0u8; 65536];
    let file = case.read(b".bin", &mut file_buffer);
    if file.failed.is_some() {
        return false;
    }
    let mut text_buffer = [0u8; 65536];
    let text = case.read(b".txt", &mut text_buffer);
    text.failed.is_none()
        && text.length < text_buffer.len()
        && comparing::file_agrees(&file_buffer[..file.length], &text_buffer[..text.length])
}

// Shows how one case ended, and answers with it.
fn show_case<R: Env + Files + Print>(case: &Case<'_, R>) -> Result<bool> {
    let agrees = case_agrees(case);
    case.show(agrees)?;
    Ok(agrees)
}

// As in sheet_cases: one function over a closure would be a new public one with nothing to promise.
fn main(rt: HostRuntime) -> Result<()> {
    let count = casefiles::arg_count(&rt);
    let mut agreed = 0;
    for argument in 1..count {
        if show_case(&Case { rt: &rt, argument })? {
            agreed += 1;
        }
    }
    casefiles::show_total(&rt, agreed, count.saturating_sub(1))
}
