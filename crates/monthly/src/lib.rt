// No code: the sheet of the lines of night files is the sheet of their runs.
#![tactic(auto)]
