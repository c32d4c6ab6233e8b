// The two bodies of a file: the plan's length (3), its values (4), the schedule's length (5) and its first bad item (6).
ghost use Rattle.std.specs.Prelude.{◌≡◌, cond, Some, None};
ghost use Rattle.nightfile.specs.File.{plan_length_wrong, plan_values, item_kinds_right, first_bad_item, schedule_answer, bodies_answer};

use crate::FileRefusal;
use positions::VALUES;

// Whether a plan body is under 3 bytes, or does not end exactly where its positions do (3).
#[tactic(auto, unfolding(crate::specs::File::plan_length_wrong, crate::specs::File::byte_at))]
fn plan_length_wrong(body: &[u8]) -> bool
    ensures { result ≡ plan_length_wrong body.now }
{
    body.len() < 3 || !positions::ends_exactly(&body[3..], body[2])
}

// The bytes of a plan body's positions, the first 352, and 0 at the places without a byte.
pub fn plan_values(body: &[u8]) -> [u8; VALUES]
    ensures { result ≡ plan_values body.now }
{
    std::array::from_fn(|place| crate::byte_at(body, 3 + place))
}

// The place of the first whole item whose first byte is above 3, counted from 0, if there is one.
fn first_bad_item(schedule: &[u8]) -> Option<usize>
    ensures { result ≡ cond (item_kinds_right schedule.now) None (Some (first_bad_item schedule.now)) }
{
    schedule.chunks_exact(3).position(|item| 3 < item[0])
}

// 5 and 6, by the schedule.
#[tactic(auto, unfolding(crate::specs::File::schedule_answer, crate::specs::File::bytes_left_over))]
fn schedule_answer(schedule: &[u8]) -> Result<(), FileRefusal>
    ensures { result ≡ schedule_answer schedule.now }
{
    if schedule.len() % 3 != 0 {
        return Err(FileRefusal::BytesLeftOver);
    }
    match first_bad_item(schedule) {
        Some(place) => Err(FileRefusal::BadItem(place)),
        None => Ok(()),
    }
}

// 3 to 6, by the two bodies.
#[tactic(auto, unfolding(crate::specs::File::bodies_answer))]
pub fn answer(body: &[u8], schedule: &[u8]) -> Result<(), FileRefusal>
    ensures { result ≡ bodies_answer body.now schedule.now }
{
    if plan_length_wrong(body) {
        return Err(FileRefusal::WrongPlanLength);
    }
    if !crate::read_plan(body).in_range() {
        return Err(FileRefusal::PlanOutOfRange);
    }
    schedule_answer(schedule)
}
