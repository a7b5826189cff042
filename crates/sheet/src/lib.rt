// The sheet of a package: both tables on a page that is lent, a line of 40 bytes for each row and column.
#![tactic(auto)]

pub mod lines;
pub mod marks;
pub mod rows;
pub mod tables;
pub mod writing;
