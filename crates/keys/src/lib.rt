//! Keys: what a book counts by. A total order, and one string of bytes for each key. Knows nothing else.
#![tactic(auto)]

pub mod key;
pub mod node;
pub mod tag;
