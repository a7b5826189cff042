// An object read (4 to 10), and its units read and filed one by one (11 to 16). Thorin's InProgressDwarfPackage, with its units and strings in lent work.
#![tactic(auto)]

pub mod contributions;
pub mod editions;
pub mod input;
pub mod keep;
pub mod objects;
pub mod parts;
pub mod reading;
pub mod single;
pub mod units;
pub mod walks;
