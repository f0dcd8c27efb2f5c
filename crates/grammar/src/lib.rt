#![tactic(auto)]

// The strict grammar: RFC 5424 section 6, in specs/. There is no code here.
