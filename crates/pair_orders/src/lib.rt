// Orders in which a chain grows pair by pair (02, R-9), as definitions and theorems: no code. Crate `wiring` has the entry.
#![tactic(auto)]
