//! The ordered index that lies through a table: the places in use, in the order of their keys. A value of `Index` is a
//! table in which every place in use stands in the index once; it finds a key's place and reads the records in key
//! order. Inner: the functions that enter, change and replace records ask for such a table. Knows places; nothing of
//! the heap.
#![tactic(auto)]

pub mod change;
pub mod records;
pub mod search;
mod shift;
