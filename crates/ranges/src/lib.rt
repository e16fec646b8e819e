// The verifier's knowledge, a record of eight ranges, and what each instruction makes of it: document 01's table, right column.
// Everything takes any ranges. The record is two arrays, of the lowest and the highest values, and is passed and returned by value:
// document 01 names this form.
#![tactic(auto)]

mod bounds;
pub mod covers;
mod cuts;
pub mod edges;
pub mod knowledge;
pub mod sums;
