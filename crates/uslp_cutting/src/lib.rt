// However octets are cut into blocks, the intake's calls give out the same. specs/ says what they give out, proofs/ shows it. No function.
#![tactic(auto)]
