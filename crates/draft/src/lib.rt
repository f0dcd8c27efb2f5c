// What a reader of whole lines answers before the tables are filled.
#![tactic(auto)]

use record::Record;
use structured_data::Rules;

// The rules that the structured data is read by, the record, where the structured data stands, and the counts of elements and parameters.
#[derive(Clone, Copy)]
pub struct Draft {
    pub rules: Rules,
    pub read: Record,
    pub at: usize,
    pub elements: usize,
    pub params: usize,
}
