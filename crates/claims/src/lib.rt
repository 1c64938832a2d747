// No code: every claim of 01 and 02 restated in full, each answered by its theorem.
#![tactic(auto)]
