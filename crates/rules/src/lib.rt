// A depth-first machine over any finite ordered tree of number sequences, as definitions and theorems: no code.
// Rules 1 to 5 of document 01, the calls with a budget, and what such calls hand out. Tables and chains do not occur here.
#![tactic(auto)]
