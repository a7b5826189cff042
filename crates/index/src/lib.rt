// Indexes of both forms: read and searched, and a unit's row judged.
#![tactic(auto)]

pub mod cells;
pub mod judging;
pub mod measures;
pub mod probing;
pub mod reading;
