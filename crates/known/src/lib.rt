// The known tables K1 to K10 of document 01, proved for the definitions: no code. The statements are in specs/KnownTables.antt, in 01's
// words, and `known_tables_lem` in proofs/AllKnown.antt proves them all.
#![tactic(auto)]
