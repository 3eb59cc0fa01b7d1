// More of the book, computed: claims in proofs/ that no must-fail edit of the book needs. It has no code.
#![tactic(auto)]
