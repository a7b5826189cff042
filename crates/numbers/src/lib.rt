// The numbers that callers, files and refusals have, each with its name, in one place. `specs` has the same names for the definitions.
#![tactic(auto)]

pub mod limits;
pub mod names;
pub mod refusals;
pub mod sections;
pub mod tables;
