// Runs: demand 3 over the bytes of the calls, in proofs/. It has no code.
#![tactic(auto)]
