// Conflicts, essential pairs and covers of a table (02, R-2: rivals, deciding pairs, irreducible covers), as definitions with their two
// theorems: no code. Crate `essentials` has the entries.
#![tactic(auto)]
