// Files joined to one bundle in the memory that it stands in, and files opened as packages.
#![tactic(auto)]

pub mod files;
pub mod joining;
pub mod laws;
pub mod opening;
