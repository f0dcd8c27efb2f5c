// What the programs `replay` and `cases` share: the text of a case, its answer against what the text says, and how they write.
#![tactic(auto)]

pub mod case;
pub mod fields;
pub mod words;
