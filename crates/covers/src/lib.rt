// Covers of a table by chains, the least number of ladders that cover it, and the search for them (02, R-7), as definitions with their
// theorems: no code. Crate `mechanisms` has the entry.
#![tactic(auto)]
