// Writing: what is written, in specs/, and that it reads back as meant, in proofs/. It has no code.
#![tactic(auto)]
