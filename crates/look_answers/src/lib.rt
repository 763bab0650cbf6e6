// Looking before grafting: the answers, and what follows of them. There is no code here.
#![tactic(auto)]
