#![tactic(auto)]

// Who follows the grammar is told yes by the check of a claim, and so is what the strict reader leaves, in memory too. There is no code here.
