// The record kept over a restart: the octets of a saved record. specs/ says what they are, proofs/ what follows. No function.
#![tactic(auto)]

// Which columns a saved record has.
#[derive(Clone, Copy)]
pub enum Form {
    // None for the bypass flag: for sequence-controlled channels.
    One,
    // One more, for the bypass flag.
    Two,
}
