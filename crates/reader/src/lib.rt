// The reader of module files: fields, layout, instructions and targets, and refusals 1 to 7, with a device's limits also 17. Nothing is
// copied: a field's value is a part of the file, and instructions and targets are read where they stand in it. Every function takes any
// bytes.
#![tactic(auto)]

pub mod decode;
pub mod field;
pub mod finding;
pub mod layout;
mod limits;
pub mod module;
pub mod read;
pub mod target;
