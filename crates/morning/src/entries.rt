// The listed schedules in the order of the report: worst first, and of one verdict in the order of the text.
#![tactic(auto, unfolding(crate::specs::Order::no_entry, crate::specs::Order::entry_at, crate::specs::Order::places_in, crate::specs::Order::seek, crate::specs::Order::first_entry, crate::specs::Order::next_entry))]

ghost use Rattle.std.specs.Prelude.{◌≤◌, ◌≡◌, cond, ltb, Some, None, length, take};
ghost use Rattle.morning.specs.Order.{no_entry, entry_at, places_in, next_place, seek, first_entry, next_entry};

use crate::{Cursor, Entry};
use verdict::Noted;

// What no row says.
pub const NO_ENTRY: Entry = Entry {
    verdict: 6,
    noted: Noted {
        count: 0,
        steps: 0,
        first: 0,
        second: 0,
    },
    start: 0,
    end: 0,
};

// What the row at a place says; of a place without a row what no row says, as is promised of every place.
pub fn entry_at(rows: &[Entry], place: usize) -> Entry
    ensures { result ≡ entry_at rows.now place }
{
    rows.get(place).copied().unwrap_or(NO_ENTRY)
}

// The rows of the listed schedules that have one.
fn listed_rows(rows: &[Entry], listed: usize) -> &[Entry]
    ensures { result.now ≡ take (places_in rows.now listed) rows.now }
{
    &rows[..listed.min(rows.len())]
}

// The first place from one on whose row has a verdict.
fn next_place(rows: &[Entry], verdict: u64, from: usize) -> Option<usize>
    requires { from ≤ length rows.now }
    ensures { let places = length rows.now in result ≡ cond (ltb (next_place rows.now places verdict from) places) (Some (next_place rows.now places verdict from)) None }
{
    let behind = rows[from..]
        .iter()
        .position(|entry| entry.verdict == verdict)?;
    Some(from + behind)
}

// The first listed schedule with a verdict from a place on, or else with a better verdict; none where the number is 6 or more.
fn seek(rows: &[Entry], start: u64, from: usize) -> Option<Cursor>
    requires { from ≤ length rows.now }
    ensures { result ≡ seek rows.now (length rows.now) start from }
{
    let mut next = from;
    for verdict in start..6 {
        if let Some(place) = next_place(rows, verdict, next) {
            return Some(Cursor { verdict, place });
        }
        next = 0;
    }
    None
}

// The first listed schedule in the order of the report.
pub fn first_entry(rows: &[Entry], listed: usize) -> Option<Cursor>
    ensures { result ≡ first_entry rows.now listed }
{
    seek(listed_rows(rows, listed), 0, 0)
}

// The one behind it.
pub fn next_entry(rows: &[Entry], listed: usize, cursor: Cursor) -> Option<Cursor>
    ensures { result ≡ next_entry rows.now listed cursor }
{
    let rows = listed_rows(rows, listed);
    seek(
        rows,
        cursor.verdict,
        cursor.place.saturating_add(1).min(rows.len()),
    )
}
