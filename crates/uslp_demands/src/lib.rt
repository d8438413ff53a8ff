// What the promises of the library settle: specs/ says what is claimed, proofs/ shows it. No function.
#![tactic(auto)]
