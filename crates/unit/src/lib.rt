// A unit, read from the part of its section that starts at it: its header, and the identity that it is handed in under.
#![tactic(auto)]

pub mod abbreviations;
pub mod forms;
pub mod header;
pub mod judged;
pub mod root;
pub mod runs;
pub mod tree;
