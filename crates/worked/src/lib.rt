// Whole images that the checker computes: the cases of document 01, and why the conditions of demand 3 are needed.
#![tactic(auto)]
