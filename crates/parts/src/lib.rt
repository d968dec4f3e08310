// A long listing in parts, as definitions and theorems: no code. A part is a pick sequence that the rules can reach; its list is the maximal chains whose
// pick sequences start with it, in the order of the whole list. Parts that split the list have lists that are, one after the other, the whole list; and run
// calls from a part's first state hand out its list. Crate `split` has the entries.
#![tactic(auto)]
