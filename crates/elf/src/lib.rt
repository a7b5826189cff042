// ELF files of either class, read into bundles of one object.
#![tactic(auto)]

pub mod accepted;
pub mod bundling;
pub mod class;
pub mod file;
pub mod judging;
pub mod naming;
pub mod reading;
pub mod stating;
