// Packages written as ELF64 files.
#![tactic(auto)]

pub mod fields;
pub mod sections;
pub mod writing;
