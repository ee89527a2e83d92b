//! The lazy heap that lies through a table: for i below `used` its entry i is a place, and that place's count in as
//! last seen. Counts in only grow, so an entry may be behind; the root is brought up to date. Inner: its functions ask
//! for such a heap, and are called only by the rooms that keep books. Knows places; nothing of the index.
#![tactic(auto)]

// They are functions of a table and not methods of a book: until the heap has followed a change of records the table is
// none. Two that only read the root need no type of their own.
// To sink and to rise are two functions: one looks at two children, the other at a parent. Their loops, and the one that
// refreshes, follow a path or repeat until something holds, which no range says.

ghost use Rattle.std.specs.Prelude.{◌≡◌, ℕ, ◌+◌, ◌*◌, ◌^◌, ◌<◌, ◌≤◌, false, length, slice_index, slice_set};
ghost use Rattle.counting.specs.declared.Record.{Record as Rec};
ghost use Rattle.places.specs.Columns.{records, counts, entries, at, BesideHeap};
ghost use Rattle.heap.specs.Heaps.{Child};
ghost use Rattle.heap.specs.Lazy.{sooner, Stands, Seated, Sound, InHeap, Turning, Sunk, Risen, Rooted, Least};

use keys::key::Key;
use places::place::{HeapEntry, Place};
use places::{count_at, entry_at, key_at, set_entry};
use std::cmp::Ordering;

// Whether an entry leaves before another: by weight, then by key.
fn leaves_before<K: Key>(table: &[Place<K>], a: HeapEntry, b: HeapEntry) -> bool
    requires { (a.place < length table.now) × (b.place < length table.now) }
    ensures { (d : Rec K) → result ≡ sooner K.Key.before (records table.now) d a b }
{
    match a.weight.cmp(&b.weight) {
        Ordering::Less => true,
        Ordering::Greater => false,
        Ordering::Equal => {
            key_at(table, a.place as usize).is_before(key_at(table, b.place as usize))
        }
    }
}

// The child of position i that leaves first.
fn least_child<K: Key>(table: &[Place<K>], used: usize, i: usize) -> usize
    requires room { used ≤ length table.now }
    requires few { used ≤ 2 ^ 32 }
    requires has { 2 * i + 1 < used }
    requires below { (j : ℕ) → Child i j → j < used → (at (entries table.now) j).place < used }
    ensures child { Child i result }
    ensures within { result < used }
    ensures least { (d : Rec K) (j : ℕ) → Child i j → j < used → sooner K.Key.before (records table.now) d (at (entries table.now) j) (at (entries table.now) result) ≡ false }
{
    let left = 2 * i + 1;
    let right = left + 1;
    if right >= used {
        return left;
    }
    if leaves_before(table, entry_at(table, right), entry_at(table, left)) {
        right
    } else {
        left
    }
}

// Puts the moving entry where `from` is, and lets it sink to where it is after neither child.
fn sink<K: Key>(table: &mut [Place<K>], used: usize, from: usize, moving: HeapEntry)
    requires room { used ≤ length table.old }
    requires few { used ≤ 2 ^ 32 }
    requires there { from < used }
    requires stands { Stands (slice_set (entries table.old) from moving) used }
    ensures beside { BesideHeap table.old table.new }
    ensures settled { Sunk K.Key.before table.old table.new used from moving }
{
    let mut i = from;
    while 2 * i + 1 < used {
        let c = least_child(table, used, i);
        let child = entry_at(table, c);
        if !leaves_before(table, child, moving) {
            break;
        }
        set_entry(table, i, child);
        i = c;
    }
    set_entry(table, i, moving);
}

// Puts the moving entry where `from` is, and lets it rise to where its parent is not after it.
fn rise<K: Key>(table: &mut [Place<K>], used: usize, from: usize, moving: HeapEntry)
    requires room { used ≤ length table.old }
    requires there { from < used }
    requires stands { Stands (slice_set (entries table.old) from moving) used }
    ensures beside { BesideHeap table.old table.new }
    ensures settled { Risen K.Key.before table.old table.new used from moving }
    ensures rooted { Rooted (slice_set (entries table.old) from moving) (entries table.new) moving }
{
    let mut i = from;
    while i > 0 {
        let parent = (i - 1) / 2;
        let above = entry_at(table, parent);
        if !leaves_before(table, moving, above) {
            break;
        }
        set_entry(table, i, above);
        i = parent;
    }
    set_entry(table, i, moving);
}

// Enters place `used`, whose record has been written, into the heap.
pub fn push<K: Key>(table: &mut [Place<K>], used: usize)
    requires room { used < length table.old }
    requires few { used < 2 ^ 32 }
    requires heap { Sound (entries table.old) (counts (records table.old)) used }
    ensures beside { BesideHeap table.old table.new }
    ensures heap { Sound (entries table.new) (counts (records table.new)) (used + 1) }
    ensures ordered { InHeap K.Key.before (entries table.old) (records table.old) used → InHeap K.Key.before (entries table.new) (records table.new) (used + 1) }
{
    let weight = count_at(table, used);
    let entry = HeapEntry {
        place: used as u32,
        weight,
    };
    rise(table, used + 1, used, entry);
}

// Brings the root's weight up to its place's count in, and lets it sink, until the root is up to date.
pub fn refresh<K: Key>(table: &mut [Place<K>], used: usize)
    requires room { used ≤ length table.old }
    requires few { used ≤ 2 ^ 32 }
    requires some { 0 < used }
    requires heap { Seated (entries table.old) (counts (records table.old)) used }
    ensures beside { BesideHeap table.old table.new }
    ensures heap { Sound (entries table.new) (counts (records table.new)) used }
    ensures ordered { Turning K.Key.before (entries table.old) (records table.old) used → InHeap K.Key.before (entries table.new) (records table.new) used }
{
    'again: loop {
        let root = entry_at(table, 0);
        let count = count_at(table, root.place as usize);
        if root.weight == count {
            break;
        }
        let refreshed = HeapEntry {
            weight: count,
            ..root
        };
        sink(table, used, 0, refreshed);
    }
}

// The place of the record with the least count in, and of these the least key.
pub fn least<K: Key>(table: &[Place<K>], used: usize) -> usize
    requires room { used ≤ length table.now }
    requires some { 0 < used }
    requires heap { Sound (entries table.now) (counts (records table.now)) used }
    ensures root { result ≡ (at (entries table.now) 0).place }
    ensures within { result < used }
    ensures least { InHeap K.Key.before (entries table.now) (records table.now) used → Least K.Key.before (records table.now) used result }
{
    let root = entry_at(table, 0);
    root.place as usize
}

// The least count in.
pub fn least_count<K: Key>(table: &[Place<K>], used: usize) -> u32
    requires room { used ≤ length table.now }
    requires some { 0 < used }
    requires heap { Sound (entries table.now) (counts (records table.now)) used }
    ensures reached { result ≡ slice_index (counts (records table.now)) (at (entries table.now) 0).place }
    ensures floor { InHeap K.Key.before (entries table.now) (records table.now) used → (q : ℕ) → q < used → result ≤ slice_index (counts (records table.now)) q }
{
    let root = entry_at(table, 0);
    root.weight
}
