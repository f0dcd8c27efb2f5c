#![tactic(auto)]

// What a reader leaves suits its line, in proofs/: printing and lookup never refuse it with 7. There is no code here.
