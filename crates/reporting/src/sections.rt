// The report's parts: the counts by verdict, the bad schedules, those to be looked at, how many are good. Each function answers whether all was written.
use crate::words;
use morning::{Cursor, Entry, Night};
use std::io::{Result, Write};
use verdict::Verdict;

// The verdicts by number.
const VERDICTS: [Verdict; 7] = [
    Verdict::Incomplete,
    Verdict::Refused,
    Verdict::RefusedActions,
    Verdict::Cut,
    Verdict::LocksLost,
    Verdict::TakesFailed,
    Verdict::Good,
];

// Writes how many schedules there are, and how many have each verdict.
fn write_counts<W: Write>(out: &mut W, counts: [u64; 7]) -> Result<()> {
    let schedules = morning::all_of(counts);
    writeln!(out, "Morning report. Schedules: {schedules}\n")?;
    for (verdict, count) in VERDICTS.into_iter().zip(counts) {
        writeln!(out, "    {verdict}: {count}")?;
    }
    Ok(())
}

// The listed schedules: their rows, their names, and how many there are.
#[derive(Clone, Copy)]
struct Listing<'a> {
    rows: &'a [Entry],
    names: &'a [u8],
    listed: usize,
}

impl Listing<'_> {
    // Writes the name of a listed schedule.
    fn write_name<W: Write>(self, out: &mut W, entry: Entry) -> Result<()> {
        let end = entry.end.min(self.names.len());
        let start = entry.start.min(end);
        out.write_all(&self.names[start..end])
    }

    // Writes a listed schedule: its verdict and its name, and in a second line what it rests on and what to do. A good one is not listed, so every number
    // above 4 is told as takes failed.
    fn write_entry<W: Write>(self, out: &mut W, place: usize) -> Result<()> {
        let entry = morning::entry_at(self.rows, place);
        let verdict = VERDICTS[entry.verdict.min(5) as usize];
        write!(out, "\n  {verdict}: ")?;
        self.write_name(out, entry)?;
        words::write_rest(out, entry)
    }

    // Writes the listed schedules from one on, as far as their verdicts belong to a part of the report, and answers where the listing then stands. As many
    // turns as are listed: a proved loop has to end.
    fn write_entries<W: Write, F: Fn(u64) -> bool>(
        self,
        out: &mut W,
        start: Option<Cursor>,
        belongs: F,
    ) -> Result<Option<Cursor>>
        requires { F.IsAlwaysCallable belongs }
    {
        let mut next = start;
        for _ in 0..self.listed {
            match next {
                Some(cursor) if belongs(cursor.verdict) => {
                    self.write_entry(out, cursor.place)?;
                    next = morning::next_entry(self.rows, self.listed, cursor);
                }
                _ => break,
            }
        }
        Ok(next)
    }
}

// Writes how many are not listed for want of room, if any.
fn write_unlisted<W: Write>(out: &mut W, unlisted: u64) -> Result<()> {
    if 0 < unlisted {
        writeln!(
            out,
            "\nNOT LISTED: {unlisted} that are not good, for want of room: look at their lines"
        )?;
    }
    Ok(())
}

// Writes the whole report. Its last line begins with GOOD.
pub(crate) fn write_report<W: Write>(
    out: &mut W,
    night: Night,
    rows: &[Entry],
    names: &[u8],
) -> Result<()> {
    let Night {
        listed,
        unlisted,
        counts,
        ..
    } = night;
    let [.., good] = counts;
    let listing = Listing {
        rows,
        names,
        listed,
    };
    write_counts(out, counts)?;
    words::write_bad(out, morning::bad_of(counts))?;
    let first = morning::first_entry(rows, listed);
    let looked_at = listing.write_entries(out, first, |number| verdict::is_bad(number))?;
    words::write_looked_at(out, morning::looked_at_of(counts))?;
    listing.write_entries(out, looked_at, |number| verdict::is_looked_at(number))?;
    write_unlisted(out, unlisted)?;
    writeln!(out, "\nGOOD: {good}")
}
