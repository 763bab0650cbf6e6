// The reply of a C call that makes a guess; definitions and laws. There is no code here.
#![tactic(auto)]
