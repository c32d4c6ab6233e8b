// How the gathering stands after a line, and inside one.
#![tactic(auto, unfolding(crate::specs::Gathering::more, crate::specs::Gathering::faulty, crate::specs::Gathering::deed_read, crate::specs::Gathering::lock_read, crate::specs::Gathering::one_run_more, crate::specs::Gathering::last_read, crate::specs::Gathering::refusal_read, crate::specs::Gathering::first_of, crate::specs::Gathering::is_next_lock, crate::specs::Gathering::after_line, crate::specs::Gathering::inside_line, crate::specs::Gathering::after_part))]

ghost use Rattle.std.specs.Prelude.{◌≡◌};
ghost use Rattle.linereader.specs.Reading.{kind_of};
ghost use Rattle.gather.specs.Gathering.{more, faulty, line_read, one_run_more, is_next_lock, after_line, after_part};

use crate::{Fault, Gather, ROWS_KEPT};
use linereader::{LineKind, Part, Scan};

// One more; a count at its top stays there. It stays beside `saturating_add`, since a statement of settled asks it.
pub fn more(count: u64) -> u64
    ensures { result ≡ more count }
{
    count.saturating_add(1)
}

// One whole run more, as far as rows are kept.
fn one_run_more(runs: u64) -> u64
    ensures { result ≡ one_run_more runs }
{
    if runs < ROWS_KEPT { runs + 1 } else { runs }
}

impl Gather {
    // Whether an H line is the next lock's.
    pub(crate) fn is_next_lock(self, lock: u64) -> bool
        ensures { result ≡ is_next_lock lock self.locks }
    {
        lock == self.locks && lock < u64::MAX
    }

    // The text is no run: the rest stays as it stands before this line.
    fn faulty(self, fault: Fault) -> Gather
        ensures { result ≡ faulty fault self }
    {
        Gather {
            scan: linereader::start_scan(),
            fault: Some(fault),
            ..self
        }
    }

    // One line more.
    fn line_read(self) -> Gather
        ensures { result ≡ line_read self.inside self.locks self.runs self.refused self }
    {
        Gather {
            scan: linereader::start_scan(),
            lines: more(self.lines),
            ..self
        }
    }

    // After a whole line.
    fn after_line(self, scan: Scan) -> Gather
        ensures { result ≡ after_line (kind_of scan.letter) scan self }
    {
        let read = self.line_read();
        match linereader::kind_of(scan.letter) {
            None => self.faulty(Fault::NoLine),
            Some(LineKind::Deed) if self.locks == 0 => Gather {
                inside: true,
                ..read
            },
            Some(LineKind::Deed) => self.faulty(Fault::DeedBehindLock),
            Some(LineKind::Lock) if self.is_next_lock(scan.numbers[0]) => Gather {
                inside: true,
                locks: more(self.locks),
                ..read
            },
            Some(LineKind::Lock) => self.faulty(Fault::LockOutOfOrder),
            Some(LineKind::Last) => Gather {
                inside: false,
                locks: 0,
                runs: one_run_more(self.runs),
                ..read
            },
            Some(LineKind::Refusal) if self.inside => self.faulty(Fault::RefusalInside),
            Some(LineKind::Refusal) => Gather {
                refused: more(self.refused),
                ..read
            },
        }
    }
}

// By what is read of the line. The promise is of any part beside any scan, so the part is handed in by itself.
pub fn after_part(part: Part, scan: Scan, state: Gather) -> Gather
    ensures { result ≡ after_part part scan state }
{
    match part {
        Part::Steps | Part::Letter | Part::Space | Part::Numbers => Gather { scan, ..state },
        Part::Whole => state.after_line(scan),
        Part::Wrong => state.faulty(Fault::NoLine),
    }
}
