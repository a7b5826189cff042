// Packing in two sittings: the law's proof. It speaks of the definitions of crate package.
#![tactic(auto)]
