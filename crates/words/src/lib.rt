// Leaves on 32-bit words and on bytes, for every crate above. Each takes any value: what a shift by 32 or more and a read past
// the end come to is defined too.
#![tactic(auto)]

pub mod arithmetic;
pub mod bytes;
