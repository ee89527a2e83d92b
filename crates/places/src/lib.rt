//! The places of a table, by columns: what stands in one, and single entries read and written. Inner: its functions
//! ask for a place of the table, and are called only by the rooms that keep books. Knows keys and records.
#![tactic(auto)]

// Each function reads or writes one column, and its clause says which. One setter that took a closure would leave that to
// each caller. That i is below the length is what a slice's own indexing asks.

ghost use Rattle.std.specs.Prelude.{◌≡◌, ◌<◌, length, slice_index, slice_index_or, slice_set};
ghost use Rattle.counting.specs.declared.Record.{Record as Rec};
ghost use Rattle.places.specs.Columns.{records, counts, indices, hints, entries, at, BesideIndex, BesideHeap};

use counting::Record;
use keys::key::Key;

pub mod place;

use place::{HeapEntry, Place};

pub fn record_at<K: Key>(table: &[Place<K>], i: usize) -> Record<K>
    requires { i < length table.now }
    ensures { (d : Rec K) → slice_index_or (records table.now) i d ≡ result }
{
    table[i].record
}

pub fn key_at<K: Key>(table: &[Place<K>], i: usize) -> K
    requires { i < length table.now }
    ensures { (d : Rec K) → (slice_index_or (records table.now) i d).key ≡ result }
{
    table[i].record.key
}

// The count in of the record in place i.
pub fn count_at<K: Key>(table: &[Place<K>], i: usize) -> u32
    requires { i < length table.now }
    ensures { result ≡ slice_index (counts (records table.now)) i }
{
    table[i].record.ins
}

pub fn index_at<K: Key>(table: &[Place<K>], i: usize) -> u32
    requires { i < length table.now }
    ensures { result ≡ slice_index (indices table.now) i }
{
    table[i].index
}

pub fn hint_at<K: Key>(table: &[Place<K>], i: usize) -> u32
    requires { i < length table.now }
    ensures { result ≡ slice_index (hints table.now) i }
{
    table[i].hint
}

// The heap's entry i.
pub fn entry_at<K: Key>(table: &[Place<K>], i: usize) -> HeapEntry
    requires { i < length table.now }
    ensures { result ≡ at (entries table.now) i }
{
    table[i].heap
}

pub fn set_record<K: Key>(table: &mut [Place<K>], i: usize, record: Record<K>)
    requires { i < length table.old }
    ensures records { records table.new ≡ slice_set (records table.old) i «record» }
    ensures index { indices table.new ≡ indices table.old }
    ensures beside { BesideIndex table.old table.new }
{
    let p = table[i];
    table[i] = Place { record, ..p };
}

pub fn set_index<K: Key>(table: &mut [Place<K>], i: usize, index: u32)
    requires { i < length table.old }
    ensures index { indices table.new ≡ slice_set (indices table.old) i index }
    ensures records { records table.new ≡ records table.old }
    ensures beside { BesideIndex table.old table.new }
{
    let p = table[i];
    table[i] = Place { index, ..p };
}

pub fn set_hint<K: Key>(table: &mut [Place<K>], i: usize, hint: u32)
    requires { i < length table.old }
    ensures hint { hints table.new ≡ slice_set (hints table.old) i hint }
    ensures records { records table.new ≡ records table.old }
    ensures index { indices table.new ≡ indices table.old }
    ensures heap { entries table.new ≡ entries table.old }
{
    let p = table[i];
    table[i] = Place { hint, ..p };
}

pub fn set_entry<K: Key>(table: &mut [Place<K>], i: usize, heap: HeapEntry)
    requires { i < length table.old }
    ensures heap { entries table.new ≡ slice_set (entries table.old) i heap }
    ensures beside { BesideHeap table.old table.new }
{
    let p = table[i];
    table[i] = Place { heap, ..p };
}
