// No code: the theorem that every lock, over any accepted plan and any schedule, behaves as one plain lock.
#![tactic(auto)]
