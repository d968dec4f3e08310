// "A run paused on the old table remains a run of the old table" (02, R-10): no code. `old_run_kept` and `kept_after_commit` in
// proofs/KeptRuns.antt say it of the definitions of `runs` and `trials`, of every paused value of either side.
#![tactic(auto)]
