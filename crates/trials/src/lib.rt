// The (P) cases of 01, proved over the definitions.
#![tactic(auto)]
