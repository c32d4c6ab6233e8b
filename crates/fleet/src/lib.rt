// Theorems only, over the definitions: the verdicts on night files.
#![tactic(auto)]
