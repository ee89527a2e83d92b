//! Changes of a book's records, by place and by position in key order. They are functions of a table and not methods of
//! a book: until the heap has followed, the table is none.
ghost use Rattle.std.specs.Prelude.{◌≡◌, ℕ, ◌+◌, ◌-◌, ◌^◌, ◌<◌, ◌≤◌, length, take, slice_index, slice_index_or, slice_set};
ghost use Rattle.std.specs.List.{insert, remove};
ghost use Rattle.counting.specs.declared.Record.{Record};
ghost use Rattle.places.specs.Columns.{records, indices, BesideIndex};
ghost use Rattle.places.specs.Rows.{rows, Placed, moved};
ghost use Rattle.counting.specs.Rule.{Sorted, at_key, enter};
ghost use Rattle.index.specs.Search.{Gap, Holds};

use super::search::Index;
use super::shift::{shift_down, shift_up};
use counting::Record;
use keys::key::Key;
use places::place::Place;
use places::{index_at, set_index, set_record};

// Another record for a place. Where it is f of what stood there, the records in key order are changed by f at its key.
pub fn amend<K: Key>(table: &mut [Place<K>], place: usize, record: Record<K>)
    requires there { place < length table.old }
    ensures records { records table.new ≡ slice_set (records table.old) place «record» }
    ensures index { indices table.new ≡ indices table.old }
    ensures beside { BesideIndex table.old table.new }
    ensures rows { (f : Record K → Record K) (used : ℕ) (x : K) → ((d : Record K) → «record» ≡ f (slice_index_or (records table.old) place d)) → used ≤ length table.old → Placed table.old used → Holds (records table.old) used x place → Sorted K.Key.before (rows table.old used) → rows table.new used ≡ at_key K.Key.before x f (rows table.old used) }
{
    set_record(table, place, record);
}

// A new record at the place `used`, at a position in key order.
pub fn append<K: Key>(table: &mut [Place<K>], used: usize, position: usize, record: Record<K>)
    requires room { used < length table.old }
    requires few { used < 2 ^ 32 }
    requires placed { Placed table.old used }
    requires there { position ≤ used }
    ensures records { records table.new ≡ slice_set (records table.old) used «record» }
    ensures index { take (used + 1) (indices table.new) ≡ insert (take used (indices table.old)) position used }
    ensures placed { Placed table.new (used + 1) }
    ensures rows { rows table.new (used + 1) ≡ insert (rows table.old used) position «record» }
    ensures exact { Sorted K.Key.before (rows table.old used) → Gap K.Key.before (rows table.old used) «record».key position → rows table.new (used + 1) ≡ enter K.Key.before «record» (rows table.old used) }
    ensures beside { BesideIndex table.old table.new }
{
    set_record(table, used, record);
    set_index(table, used, used as u32);
    shift_down(table, used, position);
}

// The record at the position `from` gives way to another, which stands at the position `to`.
pub(crate) fn replace<K: Key>(
    table: &mut [Place<K>],
    used: usize,
    from: usize,
    to: usize,
    record: Record<K>,
)
    requires room { used ≤ length table.old }
    requires placed { Placed table.old used }
    requires there { (from < used) × (to < used) }
    ensures records { records table.new ≡ slice_set (records table.old) (slice_index (indices table.old) from) «record» }
    ensures index { indices table.new ≡ moved (indices table.old) from to }
    ensures placed { Placed table.new used }
    ensures rows { rows table.new used ≡ insert (remove (rows table.old used) from) to «record» }
    ensures beside { BesideIndex table.old table.new }
{
    let place = index_at(table, from) as usize;
    amend(table, place, record);
    if from < to {
        shift_up(table, from, to);
    } else {
        shift_down(table, from, to);
    }
}

// The record of the place `out` gives way to another, whose key would enter at the position `at`.
pub fn evict<K: Key>(table: &mut [Place<K>], used: usize, out: usize, at: usize, record: Record<K>)
    requires room { used ≤ length table.old }
    requires placed { Placed table.old used }
    requires there { (out < used) × (at ≤ used) }
    ensures records { records table.new ≡ slice_set (records table.old) out «record» }
    ensures placed { Placed table.new used }
    ensures exact { (k : ℕ) → k < used → slice_index (indices table.old) k ≡ out → Sorted K.Key.before (rows table.old used) → Gap K.Key.before (rows table.old used) «record».key at → rows table.new used ≡ enter K.Key.before «record» (remove (rows table.old used) k) }
    ensures beside { BesideIndex table.old table.new }
{
    let from = Index { table, used }.position(out);
    if from < at {
        replace(table, used, from, at - 1, record);
    } else {
        replace(table, used, from, at, record);
    }
}
