// The verifier: one pass over the instructions, from what is known at each index to what is known at the next, and rules 8 to 13.
#![tactic(auto)]

pub mod rules;
pub mod verify;
