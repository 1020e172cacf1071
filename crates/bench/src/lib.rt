// The values on the bench: one table under one statement. Definitions and proofs only; the program
// `bench_run` runs the values that are to be run.
#![tactic(auto)]
