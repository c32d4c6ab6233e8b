// No code: what a loop over the places below a number means, and the laws that the proofs of loops cite.
#![tactic(auto)]
