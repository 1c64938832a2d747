// No code: definitions on lists and numbers, and their laws, for the crates above.
#![tactic(auto)]
