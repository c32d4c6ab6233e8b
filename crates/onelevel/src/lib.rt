// No code: the theorems that plans without a byte of 5 run as they did before junctions stood inside subrings.
#![tactic(auto)]
