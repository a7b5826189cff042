// What the rows of an index name, in lent words: the row of a place (by_place), and the parts of str_offsets (tiles).
#![tactic(auto)]

pub mod by_place;
pub mod tiles;
