// Made-up states of the lock ring and how the model answers them. The states and the questions are a text on standard input, one
// command a line (its first lines say how they are written); each line is written as it stands, with the answer behind it.
#![tactic(auto)]

mod command;
mod reading;
mod say;
mod script;

use std::io::{Read, Result};

// Reads standard input to its end. A byte more, or no answer, where the end should be: the text is longer than the buffer, or a
// read failed, and nothing is done.
fn main(rt: HostRuntime) -> Result<()> {
    let mut buffer = [0; 131072];
    let mut input = rt.stdin();
    let used = files::read_all(&mut input, &mut buffer).length;
    match input.read(&mut [0]) {
        Ok(0) => script::run(&rt, &buffer[..used]),
        _ => say::not_understood(&rt),
    }
}
