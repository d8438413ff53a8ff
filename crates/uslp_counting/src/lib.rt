// Demand 3: the console knows what it lacks. specs/ says what is claimed, proofs/ shows it. No function.
#![tactic(auto)]
