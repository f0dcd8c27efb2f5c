#![tactic(auto)]

// What a call of a reader left is served by the calls of printing and lookup, in proofs/: never refused with 7. There is no code here.
