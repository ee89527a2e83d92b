//! The rules of a tag ledger: what its calls answer and leave by the counting rule, the tally of a list of calls, and the
//! report law over every list. Knows frames by their definitions, and nothing of tables.
#![tactic(auto)]

pub mod laws;

// One line of a report.
#[derive(Clone, Copy, PartialEq, Eq, Debug)]
pub struct Entry<K> {
    pub key: K,
    pub low: u32,
    pub high: u32,
}
