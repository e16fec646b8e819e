// Targets found at once, by two tables beside their list: a bit for each instruction, and how many targets come before each group of 64.
#![tactic(auto)]

mod indexed;
mod tables;

pub use indexed::Indexed;
pub use tables::GROUPS;
