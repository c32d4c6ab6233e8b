// A set of locks as one 64-bit word, lock 0 the lowest bit: test, set and clear one bit, and the least member.
// Every function answers every input: a lock above 63 is in no word and changes none.
#![tactic(auto)]

ghost use Rattle.std.specs.Prelude.{◌≡◌};
ghost use Rattle.words.specs.Words.{has, with_lock, without_lock, least, all_below};

// Whether the lock is in the word.
#[tactic(auto, using(crate::proofs::Bits::has_beyond), unfolding(crate::specs::Words::has))]
pub fn has(word: u64, lock: u8) -> bool
    ensures { result ≡ has word lock }
{
    lock < 64 && (word >> lock) % 2 == 1
}

// The word with the lock's bit set.
#[tactic(auto, using(crate::proofs::Bits::one_shifted), unfolding(crate::specs::Words::with_lock))]
pub fn with_lock(word: u64, lock: u8) -> u64
    ensures { result ≡ with_lock word lock }
{
    if lock < 64 {
        word | (1u64 << lock)
    } else {
        word
    }
}

// The word with the lock's bit cleared.
#[tactic(auto, using(crate::proofs::Bits::one_shifted), unfolding(crate::specs::Words::without_lock))]
pub fn without_lock(word: u64, lock: u8) -> u64
    ensures { result ≡ without_lock word lock }
{
    if lock < 64 {
        word ^ (word & (1u64 << lock))
    } else {
        word
    }
}

// The lock with the lowest number in the word; 64 for the empty word, as is promised of every word.
#[tactic(auto, unfolding(crate::specs::Words::least))]
pub fn least(word: u64) -> u8
    ensures { result ≡ least word }
{
    word.trailing_zeros() as u8
}

// Whether every lock of the word has a number below `locks`.
#[tactic(auto, using(crate::proofs::Bits::one_shifted, crate::proofs::Bits::all_beyond), unfolding(crate::specs::Words::all_below))]
pub fn all_below(word: u64, locks: u8) -> bool
    ensures { result ≡ all_below word locks }
{
    64 <= locks || word < (1u64 << locks)
}
