// What the contracts of the services say taken together, in proofs/: RULES Cases 1 to 9, the demands, and that each
// contract leaves one result. There is no code here.
#![tactic(auto)]
