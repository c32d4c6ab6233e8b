// What a run of a night file says: its lines, a buffer filled with them, its result.
#![tactic(auto)]

ghost use Rattle.std.specs.Prelude.{◌≡◌, length};
ghost use Rattle.course.specs.Whole.{course};
ghost use Rattle.run.specs.Filling.{filling, filled_buffer};
ghost use Rattle.run.specs.Outcomes.{file_outcome};

use course::Run;
use tally::LOCKS;

mod current;
mod filling;
mod results;

// The night program's ceiling of steps. A run takes any.
pub const NIGHT_CEILING: u64 = 1_000_000;

// A run that has filled a buffer, and how many bytes it has written.
#[derive(Clone, Copy)]
pub struct Filled {
    pub run: Run,
    pub used: usize,
}

// The result of a run: the number of a refused file or 0, with 6 the place of the first bad item (else 0), whether it was cut at
// the ceiling, the steps done, the busy steps of each lock, all grants and all N events. Number and place, and no Option of a refusal: a made-up run's
// phase has any number (`course::Phase`).
#[derive(Clone, Copy)]
pub struct Outcome {
    pub refusal: u8,
    pub place: usize,
    pub cut: bool,
    pub steps: u64,
    pub busy: [u64; LOCKS],
    pub grants: u64,
    pub failed: u64,
}

// As many whole lines as fit into the buffer, from its start on, and the run before the first line that does not fit. How many lines a run has is not
// known before it is over.
pub fn fill(run: Run, schedule: &[u8], ceiling: u64, buffer: &mut [u8]) -> Filled
    ensures value { result ≡ filling (length buffer.old) (course ceiling schedule.now run) }
    ensures buffer_after { buffer.new ≡ filled_buffer buffer.old (course ceiling schedule.now run) }
{
    let mut here = run.onward(schedule, ceiling);
    let mut used = 0;
    while !here.over {
        let mut after = here;
        let line = current::say(&mut after, schedule).unwrap();
        match filling::put(line, buffer, used) {
            Some(length) => used += length,
            None => break,
        }
        here = after.onward(schedule, ceiling);
    }
    Filled { run: here, used }
}

// Runs a file, accepted or refused, to its end under a ceiling of steps.
#[tactic(auto, unfolding(crate::specs::Outcomes::file_outcome, crate::specs::Outcomes::file_course))]
pub fn run_file(file: &[u8], ceiling: u64) -> Outcome
    ensures { result ≡ file_outcome ceiling file.now }
{
    let schedule = nightfile::schedule_part(file);
    let end = results::finish(course::begin(file), schedule, ceiling);
    results::numbers(end)
}
