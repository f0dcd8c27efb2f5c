// Which tables and which output are always enough for a line: in specs/ as it is to be read, in proofs/ why. There is no code here.
#![tactic(auto)]
