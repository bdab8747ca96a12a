// Theorems over readings and walks: an older reader against the newest (demand 3), and what calls can reach.
#![tactic(auto)]
