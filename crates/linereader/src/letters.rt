// The letters of lines: which lines bear a letter, and how many numbers stand behind it.
#![tactic(auto, unfolding(crate::specs::Reading::is_deed, crate::specs::Reading::kind_of, crate::specs::Reading::numbers_behind))]

ghost use Rattle.std.specs.Prelude.{◌≡◌};
ghost use Rattle.linereader.specs.Reading.{kind_of, numbers_behind};

use crate::LineKind;

// Which lines bear a letter, if any do.
pub fn kind_of(letter: u8) -> Option<LineKind>
    ensures { result ≡ kind_of letter }
{
    match letter {
        b'H' => Some(LineKind::Lock),
        b'E' | b'C' => Some(LineKind::Last),
        b'Q' => Some(LineKind::Refusal),
        b'T' | b'R' | b'F' | b'X' | b'G' | b'N' | b'L' | b'B' | b'D' => Some(LineKind::Deed),
        _ => None,
    }
}

// How many numbers stand behind a letter.
pub(crate) fn numbers_behind(letter: u8) -> u8
    ensures { result ≡ numbers_behind letter }
{
    if letter == b'H' { 4 } else { 2 }
}
