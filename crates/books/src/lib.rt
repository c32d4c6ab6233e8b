// No code: the four rule books beside each other, and beside 01 as it stood before the books of releasing while waiting.
#![tactic(auto)]
