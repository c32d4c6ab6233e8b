// The bytes of a file and its contents (2): the number of entries, and each entry's kind, offset and length.
ghost use Rattle.std.specs.Prelude.{◌≡◌, ◌+◌, ◌≤◌, ◌<◌, ◌^◌};
ghost use Rattle.nightfile.specs.File.{byte_at, entry_at, entry_length, schedule_start, contents_right};

use crate::two_at;

// The byte at a place; 0 past the end.
#[tactic(auto, unfolding(crate::specs::File::byte_at))]
pub fn byte_at(bytes: &[u8], at: usize) -> u8
    ensures { result ≡ byte_at bytes.now at }
{
    bytes.get(at).copied().unwrap_or(0)
}

// Whether the entry at a byte is of this kind and its body starts there.
#[tactic(auto, unfolding(crate::specs::File::entry_at))]
fn entry_at(file: &[u8], at: usize, kind: u8, start: usize) -> bool
    requires { at + 1 < 2 ^ 64 }
    ensures { result ≡ entry_at file.now at kind start }
{
    byte_at(file, at) == kind && usize::from(two_at(file, at + 1)) == start
}

// The length that an entry states.
#[tactic(auto, unfolding(crate::specs::File::entry_length))]
fn entry_length(file: &[u8], at: usize) -> u16
    requires { at + 3 < 2 ^ 64 }
    ensures { result ≡ entry_length file.now at }
{
    two_at(file, at + 3)
}

// Where the schedule starts: after the plan, which starts at byte 11.
#[tactic(auto, unfolding(crate::specs::File::schedule_start))]
pub fn schedule_start(file: &[u8]) -> usize
    ensures { (result ≡ schedule_start file.now) × (11 ≤ result) × (result < 2 ^ 17) }
{
    11 + usize::from(entry_length(file, 1))
}

// Whether the contents are as 01 says: two entries, the plan and the schedule, without gap or rest.
#[tactic(auto, unfolding(crate::specs::File::contents_right))]
pub fn contents_right(file: &[u8]) -> bool
    ensures { result ≡ contents_right file.now }
{
    let start = schedule_start(file);
    byte_at(file, 0) == 2
        && entry_at(file, 1, 1, 11)
        && entry_at(file, 6, 2, start)
        && start + usize::from(entry_length(file, 6)) == file.len()
}
