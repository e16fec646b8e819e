// Module files for builders who have tables of decoded instructions and targets: `write::write` puts the file of them into a buffer
// that is lent. It takes any tables, and what the reader would refuse it refuses by the same rule.
#![tactic(auto)]

mod check;
mod fill;
pub mod row;
mod tables;
pub mod target;
pub mod write;
