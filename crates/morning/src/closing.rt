// A schedule's end: it is counted by its verdict, and listed if it is not good and there is room.
#![tactic(auto, using(crate::proofs::Laws::verdict_low), unfolding(verdict::specs::Verdicts::verdict_number, crate::specs::Reading::counted_at, crate::specs::Reading::has_room, crate::specs::Reading::is_listed, crate::specs::Reading::closed_as, crate::specs::Reading::closed_by, crate::specs::Reading::closing, crate::specs::Reading::row_put, crate::specs::Reading::rows_closed_by, crate::specs::Reading::rows_closing, crate::specs::Reading::head_begun, crate::specs::Reading::on_line_start, crate::specs::Reading::rows_on_line_start, crate::specs::Reading::end_night, crate::specs::Reading::rows_end_night))]

ghost use Rattle.std.specs.Prelude.{◌≡◌, length};
ghost use Rattle.verdict.specs.Verdicts.{verdict_number};
ghost use Rattle.morning.specs.Reading.{counted_at, closed_as, closing, rows_closing, on_line_start, rows_on_line_start, end_night, rows_end_night};

use crate::{AtHand, Entry, Night, Place, standing};
use verdict::{Judged, Verdict};

// The counts with one more of a verdict.
fn counted(counts: [u64; 7], verdict: Verdict) -> [u64; 7]
    ensures { result ≡ counted_at counts (verdict_number verdict) }
{
    let mut after = counts;
    let place = usize::from(verdict::verdict_number(verdict));
    after[place] = gather::more(counts[place]);
    after
}

impl Night {
    // No schedule is at hand, and the names end at this place. What was read of the one that has ended stays, and is gone on with where more is read
    // behind the end of a night: the promise is of every state.
    fn closed_at(self, used: usize, counts: [u64; 7]) -> Night
        ensures { result ≡ closed_as used self.listed self.unlisted counts self }
    {
        Night {
            begun: false,
            hand: AtHand {
                start: used,
                fits: true,
                ..self.hand
            },
            used,
            counts,
            ..self
        }
    }

    // The schedule at hand has ended, if there is one. The name of one that is not listed is forgotten.
    fn closing(self, rows: &mut [Entry]) -> Night
        ensures value { result ≡ closing self.begun (length rows.old) self }
        ensures rows_after { rows.new ≡ rows_closing self.begun self rows.old }
    {
        if !self.begun {
            return self;
        }
        let AtHand { watch, start, fits } = self.hand;
        let Judged { verdict, noted } = verdict::judge(watch);
        let counts = counted(self.counts, verdict);
        match verdict {
            Verdict::Good => self.closed_at(start, counts),
            _ if fits && self.listed < rows.len() => {
                rows[self.listed] = Entry {
                    verdict: u64::from(verdict::verdict_number(verdict)),
                    noted,
                    start,
                    end: self.used,
                };
                Night {
                    listed: self.listed + 1,
                    ..self.closed_at(self.used, counts)
                }
            }
            _ => Night {
                unlisted: gather::more(self.unlisted),
                ..self.closed_at(start, counts)
            },
        }
    }

    // One byte more at the start of a line: `>` begins a head line, and ends the schedule before it.
    pub(crate) fn on_line_start(&mut self, byte: u8, rows: &mut [Entry])
        ensures night_after { self.new ≡ on_line_start (length rows.old) self.old byte }
        ensures rows_after { rows.new ≡ rows_on_line_start self.old byte rows.old }
    {
        if byte == b'>' {
            let closed = self.closing(rows);
            *self = Night {
                place: Place::InName,
                begun: true,
                hand: standing::hand_begun(closed.used),
                ..closed
            };
        } else {
            self.line_byte(byte);
        }
    }
}

// The end of the text is the end of its last schedule.
pub fn end_night(state: Night, rows: &mut [Entry]) -> Night
    ensures value { result ≡ end_night (length rows.old) state }
    ensures rows_after { rows.new ≡ rows_end_night state rows.old }
{
    state.closing(rows)
}
