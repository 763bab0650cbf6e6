// The tree records that our operations can make, and what may be relied on of them. There is no code here.
#![tactic(auto)]
