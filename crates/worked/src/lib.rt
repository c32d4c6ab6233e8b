// No code: the runs that were worked by hand, P1 to P12, as one list of cases and one theorem about the definitions.
#![tactic(auto)]
