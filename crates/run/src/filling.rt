// A line of a run, written into a buffer behind those before it.
ghost use Rattle.std.specs.Prelude.{◌≡◌, cond, ◌++◌, ◌-◌, ◌≤◌, leb, length, take, drop, Some, None};
ghost use Rattle.lines.specs.Line.{buffer_after, written_told, writing};
ghost use Rattle.wording.specs.Wording.{text};

use lines::TooShort;
use wording::Line;

// Writes a line at the buffer's start, or refuses a buffer that is shorter than the line and leaves it as it was.
#[tactic(auto, unfolding(wording::specs::Wording::text, wording::specs::Wording::numbers_of, wording::specs::Wording::more_of))]
fn write(line: Line, buffer: &mut [u8]) -> Result<usize, TooShort>
    ensures result_value { written_told result ≡ writing buffer.old (text line) }
    ensures buffer_after { buffer.new ≡ buffer_after buffer.old (text line) }
{
    let Line {
        steps,
        letter,
        first,
        second,
        more,
    } = line;
    match more {
        None => lines::write_line(buffer, steps, letter, &[first, second]),
        Some((third, fourth)) => {
            lines::write_line(buffer, steps, letter, &[first, second, third, fourth])
        }
    }
}

// Writes a line behind the bytes that are used, and answers with its length; nothing where it does not fit.
#[tactic(auto, using(lines::proofs::Behind::length_told))]
pub(crate) fn put(line: Line, buffer: &mut [u8], used: usize) -> Option<usize>
    requires { used ≤ length buffer.old }
    ensures value { result ≡ cond (leb (length (text line)) (length buffer.old - used)) (Some (length (text line))) None }
    ensures buffer_after { buffer.new ≡ take used buffer.old ++ buffer_after (drop used buffer.old) (text line) }
{
    write(line, &mut buffer[used..]).ok()
}
