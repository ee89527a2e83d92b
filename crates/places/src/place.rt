//! One place of a table.
ghost use Rattle.std.specs.Prelude.{◌≡◌};

use counting::Record;

// An entry of the heap: a place, and that place's count in as last seen.
#[derive(Clone, Copy, PartialEq, Eq, Debug)]
pub struct HeapEntry {
    pub place: u32,
    pub weight: u32,
}

// At a node a place takes 32 bytes. All lists lie in the one table that the caller hands over, since memory is fixed.
// Place i holds a record, if it is in use; and beside it, of each of the three lists that lie through the table, the
// entry i.
#[derive(Clone, Copy)]
pub struct Place<K> {
    pub record: Record<K>,
    // the heap's entry i
    pub heap: HeapEntry,
    // the ordered index's entry i: the place of the record at position i in key order
    pub index: u32,
    // a place to look first for keys of slot i
    pub hint: u32,
}

impl<K: Copy> Place<K> {
    // A place that is not in use, to make a table of. Nothing reads the key.
    pub fn vacant(key: K) -> Place<K>
        ensures { result ≡ record { «record» = record { key = key; ins = 0; outs = 0; slack = 0 }; heap = record { place = 0; weight = 0 }; index = 0; hint = 0 } }
    {
        let record = Record {
            key,
            ins: 0,
            outs: 0,
            slack: 0,
        };
        Place {
            record,
            heap: HeapEntry {
                place: 0,
                weight: 0,
            },
            index: 0,
            hint: 0,
        }
    }
}
