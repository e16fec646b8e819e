// Claims worked out, for builders who have no tool for claims: sweeps over the code find them, they are written over the direct
// targets' claims in the file, and the verifier judges the result. It takes any bytes, and needs no memory but the stack.
#![tactic(auto)]

mod entry;
mod exchange;
mod sweep;
pub mod work_out;
