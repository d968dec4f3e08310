// Maximal chains in order and the runs that list them, as definitions and theorems: no code. The gauge list and the case list of a
// table, candidates and pick sequences, rules 1 to 5 on a table, demand 3 of document 01 and its proof, and growing a chain.
#![tactic(auto)]
