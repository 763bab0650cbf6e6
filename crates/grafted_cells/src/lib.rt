// The cells of a grafted tree, by those of the tree before: definitions and laws. There is no code here.
#![tactic(auto)]
