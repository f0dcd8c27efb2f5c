#![tactic(auto)]

// How many bytes of its line the structured data of a loose reading takes at least, and how far it grows in print, in proofs/. There is no code here.
