// The notes of the lines with one letter: how many, and the first one.
#![tactic(auto, unfolding(crate::specs::Verdicts::first_noted, crate::specs::Verdicts::one_more_note, crate::specs::Verdicts::noted, crate::specs::Verdicts::noted_if))]

ghost use Rattle.std.specs.Prelude.{◌≡◌};
ghost use Rattle.verdict.specs.Verdicts.{noted_if};

use crate::Noted;
use linereader::Scan;

impl Noted {
    // A line is noted if it has this letter; a count at its top stays there.
    pub(crate) fn noted_if(self, letter: u8, scan: Scan) -> Noted
        ensures { result ≡ noted_if letter scan self }
    {
        if scan.letter != letter {
            return self;
        }
        if self.count == 0 {
            let [first, second, ..] = scan.numbers;
            return Noted {
                count: 1,
                steps: scan.steps,
                first,
                second,
            };
        }
        Noted {
            count: gather::more(self.count),
            ..self
        }
    }
}
