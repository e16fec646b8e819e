// The stepping machine: the listed step, and runs with a budget over a region that is lent from the box's memory.
// `value` takes the machine by value and gives it back; `lent` updates a machine that the host lends.
#![tactic(auto)]

mod access;
pub mod lent;
mod operations;
mod places;
mod registers;
mod stepping;
pub mod value;
