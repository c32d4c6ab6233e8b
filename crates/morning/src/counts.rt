// What the counts by verdict come to: the bad schedules, those to be looked at, all of them. A count at its top stays there.
#![tactic(auto, unfolding(crate::specs::Counts::together, crate::specs::Counts::bad_of, crate::specs::Counts::looked_at_of, crate::specs::Counts::all_of))]

ghost use Rattle.std.specs.Prelude.{◌≡◌};
ghost use Rattle.morning.specs.Counts.{bad_of, looked_at_of, all_of};

// The bad ones: incomplete, refused, refused actions, cut.
pub fn bad_of(counts: [u64; 7]) -> u64
    ensures { result ≡ bad_of counts }
{
    let [incomplete, refused, actions, cut, ..] = counts;
    incomplete
        .saturating_add(refused)
        .saturating_add(actions.saturating_add(cut))
}

// Those to be looked at: locks lost, takes failed.
pub fn looked_at_of(counts: [u64; 7]) -> u64
    ensures { result ≡ looked_at_of counts }
{
    let [_, _, _, _, lost, failed, _] = counts;
    lost.saturating_add(failed)
}

// All schedules.
pub fn all_of(counts: [u64; 7]) -> u64
    ensures { result ≡ all_of counts }
{
    let [.., good] = counts;
    bad_of(counts)
        .saturating_add(looked_at_of(counts))
        .saturating_add(good)
}
