// All objects are filed: 19 and 18, and the package written front to back. Thorin's InProgressDwarfPackage::finish.
#![tactic(auto)]

pub mod joining;
pub mod sections;
pub mod sizes;
pub mod tables;
pub mod whole;
pub mod writing;
