// The pairs of a set in order, by gauge and then case (02, R-7), as definitions and theorems: no code.
#![tactic(auto)]
