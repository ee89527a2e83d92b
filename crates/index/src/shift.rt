//! Moving one index entry. Up and down are two functions, since each goes through the entries in an order of its own.
ghost use Rattle.std.specs.Prelude.{◌≡◌, ◌+◌, ◌-◌, ◌<◌, ◌≤◌, length};
ghost use Rattle.places.specs.Columns.{records, indices, BesideIndex};
ghost use Rattle.places.specs.Rows.{moved};

use keys::key::Key;
use places::place::Place;
use places::{index_at, set_index};

// The entry at `from` goes up to `to`, and those on its way come down by one.
pub(crate) fn shift_up<K: Key>(table: &mut [Place<K>], from: usize, to: usize)
    requires { (from ≤ to) × (to < length table.old) }
    ensures index { indices table.new ≡ moved (indices table.old) from to }
    ensures records { records table.new ≡ records table.old }
    ensures beside { BesideIndex table.old table.new }
{
    let moving = index_at(table, from);
    for i in from..to {
        let next = index_at(table, i + 1);
        set_index(table, i, next);
    }
    set_index(table, to, moving);
}

// The entry at `from` goes down to `to`, and those on its way go up by one.
pub(crate) fn shift_down<K: Key>(table: &mut [Place<K>], from: usize, to: usize)
    requires { (to ≤ from) × (from < length table.old) }
    ensures index { indices table.new ≡ moved (indices table.old) from to }
    ensures records { records table.new ≡ records table.old }
    ensures beside { BesideIndex table.old table.new }
{
    let moving = index_at(table, from);
    for i in (to..from).rev() {
        let next = index_at(table, i);
        set_index(table, i + 1, next);
    }
    set_index(table, to, moving);
}
