// The night file: whether it is accepted or which of 1 to 6 it is refused with, its two parts and the plan.
#![tactic(auto)]

ghost use Rattle.std.specs.Prelude.{◌≡◌};
ghost use Rattle.nightfile.specs.File.{two_at, file_told, refusal_number, refusal_place, file_answer, file_answer_number, file_answer_place, file_answer_told, plan_part, schedule_part, schedule_start, part_at, plan_of};

use contents::{byte_at, contents_right, schedule_start};
use plan::Plan;

mod bodies;
mod contents;

// Why a file is refused: 1 to 6; with 6 the place of the first bad item, counted from 0.
#[derive(Clone, Copy, Debug, PartialEq, Eq)]
pub enum FileRefusal {
    WrongLength,
    WrongContents,
    WrongPlanLength,
    PlanOutOfRange,
    BytesLeftOver,
    BadItem(usize),
}

impl FileRefusal {
    // The number of a refusal in 01.
    #[tactic(auto, unfolding(crate::specs::File::refusal_number))]
    pub fn number(self) -> u8
        ensures { result ≡ refusal_number self }
    {
        match self {
            FileRefusal::WrongLength => 1,
            FileRefusal::WrongContents => 2,
            FileRefusal::WrongPlanLength => 3,
            FileRefusal::PlanOutOfRange => 4,
            FileRefusal::BytesLeftOver => 5,
            FileRefusal::BadItem(_) => 6,
        }
    }

    // The place of the first bad item that a refusal tells, counted from 0; 0 where it tells none, as a line Q has it.
    #[tactic(auto, unfolding(crate::specs::File::refusal_place))]
    pub fn place(self) -> usize
        ensures { result ≡ refusal_place self }
    {
        match self {
            FileRefusal::BadItem(place) => place,
            _ => 0,
        }
    }
}

// The number of an answer to a file in 01; 0: accepted.
#[tactic(auto, unfolding(crate::specs::File::file_answer_number))]
pub fn file_number(answer: Result<(), FileRefusal>) -> u8
    ensures { result ≡ file_answer_number answer }
{
    match answer {
        Ok(()) => 0,
        Err(refusal) => refusal.number(),
    }
}

// The place of the first bad item that an answer to a file tells, counted from 0; 0 where it tells none, as is promised of every answer.
#[tactic(auto, unfolding(crate::specs::File::file_answer_place))]
pub fn file_place(answer: Result<(), FileRefusal>) -> usize
    ensures { result ≡ file_answer_place answer }
{
    match answer {
        Ok(()) => 0,
        Err(refusal) => refusal.place(),
    }
}

// The number of two bytes, low byte first; a byte past the end is 0.
#[tactic(auto, unfolding(crate::specs::File::two_at, crate::specs::File::byte_at))]
pub fn two_at(bytes: &[u8], at: usize) -> u16
    ensures { result ≡ two_at bytes.now at }
{
    let low = byte_at(bytes, at);
    let high = byte_at(bytes, at.saturating_add(1));
    u16::from(low) + 256 * u16::from(high)
}

// Whether a file is accepted, or the lowest of 1 to 6 that applies; with 6 the place of the first bad item.
#[tactic(auto, using(crate::proofs::Laws::start_most, crate::proofs::Laws::plan_cut, crate::proofs::Laws::schedule_cut), unfolding(crate::specs::File::file_answer, crate::specs::File::length_wrong))]
pub fn test_file(file: &[u8]) -> Result<(), FileRefusal>
    ensures answer { result ≡ file_answer file.now }
    ensures told { file_answer_told result ≡ file_told file.now }
{
    if file.len() < 11 || 65535 < file.len() {
        return Err(FileRefusal::WrongLength);
    }
    if !contents_right(file) {
        return Err(FileRefusal::WrongContents);
    }
    let start = schedule_start(file);
    bodies::answer(&file[11..start], &file[start..])
}

// The plan's part of the file; an empty part of a refused file.
#[tactic(auto, using(crate::proofs::Laws::refused_by, crate::proofs::Laws::start_within, crate::proofs::Laws::plan_cut), unfolding(crate::specs::File::plan_part, crate::specs::File::if_accepted, crate::specs::File::part_at))]
pub fn plan_part(file: &[u8]) -> &[u8]
    ensures result_value { result.now ≡ plan_part file.now }
    ensures ref_ptr_value { result.ref_ptr ≡ part_at file.entry.ref_ptr file.now 11 }
{
    if test_file(file).is_err() {
        return &file[..0];
    }
    let start = schedule_start(file);
    &file[11..start]
}

// The schedule's part of the file; an empty part of a refused file. Apart from `plan_part`: each part is promised with its pointer.
#[tactic(auto, using(crate::proofs::Laws::refused_by, crate::proofs::Laws::start_within, crate::proofs::Laws::schedule_cut), unfolding(crate::specs::File::schedule_part, crate::specs::File::if_accepted, crate::specs::File::part_at))]
pub fn schedule_part(file: &[u8]) -> &[u8]
    ensures result_value { result.now ≡ schedule_part file.now }
    ensures ref_ptr_value { result.ref_ptr ≡ part_at file.entry.ref_ptr file.now (schedule_start file.now) }
{
    if test_file(file).is_err() {
        return &file[..0];
    }
    let start = schedule_start(file);
    &file[start..]
}

// The plan that a plan part says.
#[tactic(auto, unfolding(crate::specs::File::plan_of))]
pub fn read_plan(part: &[u8]) -> Plan
    ensures { result ≡ plan_of part.now }
{
    Plan {
        rules: byte_at(part, 0),
        locks: byte_at(part, 1),
        positions: byte_at(part, 2),
        values: bodies::plan_values(part),
    }
}
