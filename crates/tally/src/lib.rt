// What a run counts for each lock: busy steps, grants and N events; and their sums.
#![tactic(auto)]

ghost use Rattle.std.specs.Prelude.{◌≡◌, ℕ, ◌≤◌, length, min};
ghost use Rattle.lists.specs.Loops.{iterate};
ghost use Rattle.words.specs.Words.{has};
ghost use Rattle.tally.specs.Tally.{empty_tally, counted, busy, busy_counts, is_counted, event_tally, events_tally, step_tally, silent_tally, sum_of};

use plan::NODES;
use turns::Event;
use usernode::Node;

// The places kept for locks.
pub const LOCKS: usize = 64;

// One count a lock, of each kind. Three arrays and not one of structs: the busy counts are handed on alone (`busy_counts`, nightlock `with_busy`, run
// `Outcome`), and so is each kind to `sum_of`.
#[derive(Clone, Copy, Debug, PartialEq, Eq)]
pub struct Tally {
    pub busy: [u64; LOCKS],
    pub grants: [u64; LOCKS],
    pub failed: [u64; LOCKS],
}

// Nothing counted yet.
#[tactic(auto, unfolding(crate::specs::Tally::empty_tally, crate::specs::Tally::no_counts))]
pub fn empty_tally() -> Tally
    ensures { result ≡ empty_tally }
{
    Tally {
        busy: [0; LOCKS],
        grants: [0; LOCKS],
        failed: [0; LOCKS],
    }
}

// One more of a lock; a count at its top stays there.
fn counted(mut counts: [u64; LOCKS], lock: u8) -> [u64; LOCKS]
    ensures { result ≡ counted counts lock }
{
    if lock < 64 {
        counts[lock as usize] = counts[lock as usize].saturating_add(1);
    }
    counts
}

// A number, at most 64.
fn at_most_64(number: u8) -> usize
    ensures { result ≡ min number 64 }
{
    usize::from(number).min(64)
}

// The locks that some of the first nodes hold or are letting go.
fn had_by_some(nodes: &[Node], count: usize) -> u64
    requires { count ≤ length nodes.now }
    ensures { (lock : ℕ) → has result lock ≡ busy nodes.now count lock }
{
    let mut word = 0;
    for node in &nodes[..count] {
        word |= node.held | node.letting;
    }
    word
}

// So many steps more for each busy lock of the first locks.
fn busy_counts(
    nodes: &[Node],
    count: usize,
    locks: usize,
    steps: u64,
    mut counts: [u64; LOCKS],
) -> [u64; LOCKS]
    requires { (count ≤ length nodes.now) × (locks ≤ 64) }
    ensures { result ≡ iterate (busy_counts nodes.now count locks) steps counts }
{
    let word = had_by_some(nodes, count);
    for lock in 0..locks {
        if words::has(word, lock as u8) {
            counts[lock] = counts[lock].saturating_add(steps);
        }
    }
    counts
}

// Whether an event is one that is counted.
#[tactic(auto, unfolding(crate::specs::Tally::is_counted))]
fn is_counted(event: Option<Event>) -> bool
    ensures { result ≡ is_counted event }
{
    matches!(event, Some(Event::Granted(_) | Event::Failed(_)))
}

// One more grant or failure, by the event.
#[tactic(auto, unfolding(crate::specs::Tally::event_tally))]
fn event_tally(event: Option<Event>, tally: Tally) -> Tally
    ensures { result ≡ event_tally event tally }
{
    match event {
        Some(Event::Granted(lock)) => Tally {
            grants: counted(tally.grants, lock),
            ..tally
        },
        Some(Event::Failed(lock)) => Tally {
            failed: counted(tally.failed, lock),
            ..tally
        },
        _ => tally,
    }
}

// The events of the first nodes.
fn events_tally(events: &[Option<Event>], count: usize, tally: Tally) -> Tally
    requires { count ≤ length events.now }
    ensures { result ≡ events_tally events.now count tally }
{
    let mut next = tally;
    for &event in &events[..count] {
        if is_counted(event) {
            next = event_tally(event, next);
        }
    }
    next
}

// What is counted after a step: its events, and who has what then.
pub fn step_tally(
    nodes: [Node; NODES],
    events: [Option<Event>; NODES],
    count: u8,
    locks: u8,
    tally: Tally,
) -> Tally
    ensures { result ≡ step_tally nodes events count locks tally }
{
    let those = at_most_64(count);
    Tally {
        busy: busy_counts(&nodes, those, at_most_64(locks), 1, tally.busy),
        ..events_tally(&events, those, tally)
    }
}

// What is counted after so many steps without an event: who has what stays as it is. Apart from `step_tally`: each has a definition of its own.
pub fn silent_tally(nodes: [Node; NODES], count: u8, locks: u8, steps: u16, tally: Tally) -> Tally
    ensures { result ≡ silent_tally nodes count locks steps tally }
{
    Tally {
        busy: busy_counts(
            &nodes,
            at_most_64(count),
            at_most_64(locks),
            u64::from(steps),
            tally.busy,
        ),
        ..tally
    }
}

// The sum of the first locks' counts, at most the top.
pub fn sum_of(counts: [u64; LOCKS], locks: u8) -> u64
    ensures { result ≡ sum_of counts locks }
{
    let mut sum = 0u64;
    for &count in &counts[..at_most_64(locks)] {
        sum = sum.saturating_add(count);
    }
    sum
}
