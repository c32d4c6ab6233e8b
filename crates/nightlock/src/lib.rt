// No code: demand 3 of what the night program reports.
#![tactic(auto)]
