// The tree that some of the leaves span, and pruning: definitions and laws. There is no code here.
#![tactic(auto)]
