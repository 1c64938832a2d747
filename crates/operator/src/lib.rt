// No code: the modified switch operator at a table and a size, and its theory.
#![tactic(auto)]
