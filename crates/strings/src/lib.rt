// Strings reached by str_offsets: entries, the table of kept strings with their index, the sections of the package.
#![tactic(auto)]

pub mod entries;
pub mod pieces;
pub mod sections;
pub mod seek;
pub mod table;
