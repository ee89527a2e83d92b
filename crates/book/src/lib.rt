//! One book over a lent table: put, take, bounds and ceiling by index and heap. A value of its types is a table whose
//! index and heap are sound and in the order of keys, so no call asks more. Inner: the room above, which owns its
//! table, offers them to others.
#![tactic(auto)]

pub mod read;
pub mod work;
