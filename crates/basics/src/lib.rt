// What any crate may use and none is about: the law that a clash of numbers proves anything (proofs/Clash.antt).
#![tactic(auto)]
