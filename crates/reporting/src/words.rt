// The words of the report: what each verdict and each number mean, and what to do. README.md has the same tables.
use morning::Entry;
use std::io::{Result, Write};
use verdict::Noted;

// Writes the heading of a part of the report, with what to do about the schedules in it.
fn write_heading<W: Write>(out: &mut W, heading: &str, count: u64, what_to_do: &str) -> Result<()> {
    if count == 0 {
        return writeln!(out, "\n{heading}: 0");
    }
    writeln!(out, "\n{heading}: {count}. {what_to_do}")
}

// Writes the heading of the bad schedules.
pub(crate) fn write_bad<W: Write>(out: &mut W, count: u64) -> Result<()> {
    write_heading(
        out,
        "BAD",
        count,
        "These must not go on a ship. Warn the firmware desk first, then shore support.",
    )
}

// Writes the heading of those to be looked at.
pub(crate) fn write_looked_at<W: Write>(out: &mut W, count: u64) -> Result<()> {
    write_heading(
        out,
        "TO BE LOOKED AT",
        count,
        "Have the owners of these jobs look.",
    )
}

// What a file's refusal means and what to do, by its number: the line of a text may have any.
fn refusal_words(number: u64) -> &'static str {
    match number {
        1 => {
            "it has under 11 or over 65,535 bytes. Check how it was written or sent; a schedule that is too long is not checked."
        }
        2 => "its contents are not as they must be. Correct the tool that writes the file.",
        3 => {
            "the plan's body does not end where its positions do. Correct its length, its number of positions or a list's count."
        }
        4 => {
            "a plan value is outside its range. Correct rules, locks, positions, a value, a list's count, the levels or the nodes."
        }
        5 => "the schedule's length is not a multiple of 3. Look for a cut or doubled item.",
        6 => {
            "the item's first byte is above 3. Correct it, and run the file again: there may be more."
        }
        _ => "no number of a night file. See who changed the lines.",
    }
}

// What an action's refusal means and what to do, by its number.
fn action_words(number: u64) -> &'static str {
    match number {
        7 => "a node that the plan does not have. Correct the node, or the plan.",
        8 => "a lock that the plan does not have. Correct the lock, or the plan's number of locks.",
        9 => "the node is not idle. Put steps between its actions.",
        10 => {
            "take or force of a lock that the node holds. Remove the action, or release first."
        }
        11 => {
            "take or force of a lock that the node is letting go. Put steps between: its didv must have gone."
        }
        12 => {
            "release of a lock that the node does not hold. Look for a take that failed (N) or a lock that was lost (L) before."
        }
        _ => "no number of an action. See who changed the lines.",
    }
}

// Writes how many lines there are, what they say, and at which steps the first one is.
fn write_first<W: Write>(out: &mut W, noted: Noted, what: &str) -> Result<()> {
    let Noted { count, steps, .. } = noted;
    write!(out, "\n    {count} {what}, the first after {steps} steps: ")
}

// Writes what a refused file's verdict rests on. The place of a bad item is told of 6 only.
fn rest_of_refused<W: Write>(out: &mut W, noted: Noted) -> Result<()> {
    let number = noted.first;
    let place = noted.second;
    let words = refusal_words(number);
    write!(out, "\n    number {number}")?;
    if number == 6 {
        write!(out, ", item {place}")?;
    }
    writeln!(out, ": {words}")
}

// Writes what the verdict of refused actions rests on.
fn rest_of_actions<W: Write>(out: &mut W, noted: Noted) -> Result<()> {
    let number = noted.first;
    let item = noted.second;
    let words = action_words(number);
    write_first(out, noted, "refused")?;
    writeln!(out, "item {item}, number {number}: {words}")
}

// Writes what a verdict by lines of nodes and locks rests on, and what to do.
fn rest_of_locks<W: Write>(out: &mut W, noted: Noted, what: &str, what_to_do: &str) -> Result<()> {
    let node = noted.first;
    let lock = noted.second;
    write_first(out, noted, what)?;
    writeln!(out, "node {node}, lock {lock}. {what_to_do}")
}

// Writes what a verdict rests on and what to do, by its number, behind the schedule's name. A good schedule is not listed.
pub(crate) fn write_rest<W: Write>(out: &mut W, entry: Entry) -> Result<()> {
    let noted = entry.noted;
    match entry.verdict {
        0 => writeln!(
            out,
            "\n    there is no whole run. Run it again; do not use its lines."
        ),
        1 => rest_of_refused(out, noted),
        2 => rest_of_actions(out, noted),
        3 => {
            let steps = noted.steps;
            writeln!(
                out,
                "\n    at {steps} steps. What comes behind was not run and is not checked: have the planner shorten the schedule."
            )
        }
        4 => rest_of_locks(
            out,
            noted,
            "lost",
            "The loser's job may have been at work on the tables: have both owners look.",
        ),
        _ => rest_of_locks(
            out,
            noted,
            "failed",
            "A job would run without its lock if it does not ask again: have its owner look.",
        ),
    }
}
