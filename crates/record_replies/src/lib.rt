// The reply of a C call that makes a tree record; definitions and laws. There is no code here.
#![tactic(auto)]
