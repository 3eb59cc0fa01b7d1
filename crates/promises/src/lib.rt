// The promises: theorems about the book, in proofs/. It has no code.
#![tactic(auto)]
