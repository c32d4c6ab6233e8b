// The verdict on one schedule, by the lines that the night program wrote of it: text that is no whole run, or else the worst line that it has, decides.
// The text comes byte by byte, and is read by linereader and gather.
#![tactic(auto, unfolding(gather::specs::Gathering::is_fine, crate::specs::Verdicts::no_notes, crate::specs::Verdicts::start_watch, crate::specs::Verdicts::inside_line, crate::specs::Verdicts::is_whole_line, crate::specs::Verdicts::watch_part, crate::specs::Verdicts::watch_byte))]

mod judging;
mod notes;

ghost use Rattle.std.specs.Prelude.{◌≡◌};
ghost use Rattle.verdict.specs.Verdicts.{start_watch, line_watched, watch_byte};

use gather::Gather;
pub use judging::{is_bad, is_looked_at, judge, verdict_number};
use linereader::{Part, Scan};
use std::fmt;

// What a schedule is, worst first: its text is no whole run; its file was refused (Q); some of its actions were refused (X); it was cut (C); locks
// were lost (L); takes failed (N); or it is good. The first four are bad, the next two are to be looked at.
#[derive(Clone, Copy, Debug, PartialEq, Eq, PartialOrd, Ord)]
pub enum Verdict {
    Incomplete,
    Refused,
    RefusedActions,
    Cut,
    LocksLost,
    TakesFailed,
    Good,
}

impl fmt::Display for Verdict {
    fn fmt<W: fmt::Write>(&self, f: &mut fmt::Formatter<W>) -> fmt::Result {
        f.write_str(match self {
            Verdict::Incomplete => "incomplete",
            Verdict::Refused => "refused",
            Verdict::RefusedActions => "refused actions",
            Verdict::Cut => "cut",
            Verdict::LocksLost => "locks lost",
            Verdict::TakesFailed => "takes failed",
            Verdict::Good => "good",
        })
    }
}

// The lines with one letter: how many there were, and the steps and the first two numbers of the first one.
#[derive(Clone, Copy, Debug, Default, PartialEq, Eq)]
pub struct Noted {
    pub count: u64,
    pub steps: u64,
    pub first: u64,
    pub second: u64,
}

// What has been read of a schedule's text: how its reading stands, its H lines, and the lines that a verdict goes by.
#[derive(Clone, Copy, Debug, PartialEq, Eq)]
pub struct Watch {
    pub gather: Gather,
    pub locks: Noted,
    pub refusal: Noted,
    pub actions: Noted,
    pub cut: Noted,
    pub lost: Noted,
    pub failed: Noted,
}

// The verdict, and the lines that it rests on.
#[derive(Clone, Copy, Debug, PartialEq, Eq)]
pub struct Judged {
    pub verdict: Verdict,
    pub noted: Noted,
}

// At the start of a schedule's text.
pub fn start_watch() -> Watch
    ensures { result ≡ start_watch }
{
    Watch {
        gather: gather::start_gather(),
        locks: Noted::default(),
        refusal: Noted::default(),
        actions: Noted::default(),
        cut: Noted::default(),
        lost: Noted::default(),
        failed: Noted::default(),
    }
}

impl Watch {
    // After a whole line: it is noted by its letter.
    #[tactic(auto, unfolding(crate::specs::Verdicts::line_watched))]
    fn line_watched(self, scan: Scan, gather: Gather) -> Watch
        ensures { result ≡ line_watched scan gather self }
    {
        Watch {
            gather,
            locks: self.locks.noted_if(b'H', scan),
            refusal: self.refusal.noted_if(b'Q', scan),
            actions: self.actions.noted_if(b'X', scan),
            cut: self.cut.noted_if(b'C', scan),
            lost: self.lost.noted_if(b'L', scan),
            failed: self.failed.noted_if(b'N', scan),
        }
    }
}

// One byte more of the text. Inside a line the notes stay; behind the first fault nothing is read.
pub fn watch_byte(watch: Watch, byte: u8) -> Watch
    ensures { result ≡ watch_byte watch byte }
{
    if watch.gather.fault.is_some() {
        return watch;
    }
    let scan = linereader::scan_byte(watch.gather.scan, byte);
    let gather = gather::after_part(scan.part, scan, watch.gather);
    match scan.part {
        Part::Whole => watch.line_watched(scan, gather),
        _ => Watch { gather, ..watch },
    }
}
