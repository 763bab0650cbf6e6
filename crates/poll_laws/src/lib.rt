// The laws of polls: what a tree's own poll adds up to, and that it is rebuilt as that tree; that every poll adds up to
// a table, and what the cells of that total. There is no code here.
#![tactic(auto)]
