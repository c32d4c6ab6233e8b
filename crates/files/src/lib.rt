// Reading all that a reader has, as far as a buffer takes it, or a piece at a time.
#![tactic(auto)]

mod pieces;

ghost use Rattle.std.specs.Prelude.{◌≡◌, ◌<◌, length, take, None};
ghost use Rattle.std.specs.Io.KnownBytes.{Consumes, IsAtEnd};
ghost use Rattle.io.specs.Counts.{IsPrefixLen};

pub use pieces::{Intake, read_pieces};
use std::io::{Error, Read};

// How many bytes were read, and the error that ended the reading, if one did. No Result: `read_all` promises which bytes were read before an error too.
#[derive(Clone, Copy, Debug)]
pub struct Input {
    pub length: usize,
    pub failed: Option<Error>,
}

// Reads until the end, until the buffer is full or until an error. Which bytes a file has is outside the model: of any reader the
// promise says that the bytes counted are bytes of the buffer. Of a reader whose bytes are known it says that they are the next of these, and
// all of them where neither an error nor the buffer's end came first. No `for`: a reader gives as much at a time as it likes.
pub fn read_all<R: Read>(reader: &mut R, buffer: &mut [u8]) -> Input
    ensures within { IsPrefixLen result.length buffer.new }
    ensures bytes { Consumes (R.remaining reader.old) (R.remaining reader.new) (take result.length buffer.new) }
    ensures whole { result.failed ≡ None → result.length < length buffer.new → IsAtEnd (R.remaining reader.new) }
{
    let mut length = 0;
    while length < buffer.len() {
        match reader.read(&mut buffer[length..]) {
            Ok(0) => break,
            Ok(count) => length += count,
            Err(error) => {
                let failed = Some(error);
                return Input { length, failed };
            }
        }
    }
    Input {
        length,
        failed: None,
    }
}
