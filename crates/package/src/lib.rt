// The definitions of packing and their laws; the code that packs stands in crates above.
#![tactic(auto)]
