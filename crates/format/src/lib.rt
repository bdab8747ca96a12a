// The format's blocks: which chip takes what, and the rules of one block, as definitions (document 01, 'Leaf and blocks').
#![tactic(auto)]
