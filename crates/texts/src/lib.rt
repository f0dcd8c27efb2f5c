// The loose rules go by characters, and what a loose reader leaves are texts of whole characters: in specs/ as it is to be read, in proofs/ why.
// There is no code here.
#![tactic(auto)]
