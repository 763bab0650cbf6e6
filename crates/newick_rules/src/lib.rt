// Newick text: definitions in specs/, laws in proofs/, and no code.
#![tactic(auto)]
