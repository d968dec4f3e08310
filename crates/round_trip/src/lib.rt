// What is written reads back (02, R-5; 01 for tables): no code. `test_round_trip` and `round_trip` in proofs/RoundTrip.antt say it of the
// definitions of `reader` and `writer`, of every legal test and of every legal table; `equal_files` in proofs/EqualFiles.antt that tests are equal
// exactly when their files are (02, R-11).
#![tactic(auto)]
