// Reading to the end of a file a piece at a time, each taken into a value, so that a file of any length takes the same memory.
ghost use Rattle.std.specs.Prelude.{ℕ, List, [], ◌++◌, OnOk};
ghost use Rattle.std.specs.Io.KnownBytes.{Consumes, IsAtEnd};

use std::io::{Error, Read, Result};

// What a text is taken into, a piece at a time.
pub trait Intake {
    // Of a value before, a text and a value after: the text was taken in.
    ghost taken: { Self → List ℕ → Self → Type 0 };

    // Takes the next piece in.
    fn take(&mut self, piece: &[u8])
        ensures { taken self.old piece.now self.new };

    // No text leaves the value, and in whatever pieces a text comes, it is taken in.
    ghost taken_none: { (value : Self) → taken value [] value };

    ghost taken_more: { (before between after : Self) (text more : List ℕ) → taken before text between → taken between more after
        → taken before (text ++ more) after };
}

// Reads to the end of the file. A proved loop has to end, and nothing says that a file does: so the turns are counted, up to a number that no machine
// comes to; coming to it would count as an error. Of a reader whose bytes are known the promise says that those that it has given are taken in, before an
// error too, and all of them where none came.
pub fn read_pieces<R: Read, T: Intake>(reader: &mut R, intake: &mut T) -> Result<()>
    ensures taken { (come : List ℕ) × Consumes (R.remaining reader.old) (R.remaining reader.new) come × T.taken intake.old come intake.new }
    ensures whole { OnOk result (IsAtEnd (R.remaining reader.new)) }
{
    let mut buffer = [0; 65536];
    for _ in 0..u64::MAX {
        match reader.read(&mut buffer)? {
            0 => return Ok(()),
            count => intake.take(&buffer[..count]),
        }
    }
    Err(Error::other("the file does not end"))
}
