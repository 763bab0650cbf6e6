// The answers of the guess, what they mean, and what a maker may rely on. There is no code here.
#![tactic(auto)]
