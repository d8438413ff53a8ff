// Demand 2: frames are read exactly as they are laid out. proofs/ shows it. No function.
#![tactic(auto)]
