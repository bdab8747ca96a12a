// The blocks of a leaf: how it is cut into them, what a level counts and lists of them, and why they are refused, as definitions
// (document 01, 'Leaf and blocks'; document 02, requests 3 and 12).
#![tactic(auto)]
