// The scope's cases P1 to P12, as theorems about the operations' answers. There is no code here.
#![tactic(auto)]
