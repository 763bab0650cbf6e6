// What import keeps of a text while it reads: definitions in specs/, laws in proofs/, and no code.
#![tactic(auto)]
