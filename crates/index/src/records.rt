//! The records of an index one by one.
ghost use Rattle.std.specs.Prelude.{◌≡◌, ◌≤◌};

use super::search::Index;
use counting::Record;
use keys::key::Key;
use std::ops::Range;

// The records in key order that are left.
#[derive(Drop)]
pub struct Records<'a, K> {
    index: Index<'a, K>,
    positions: Range<usize>,
    ghost within: { positions.start ≤ positions.end },
    ghost whole: { positions.end ≡ index.used },
}

impl<'a, K> Records<'a, K> {
    ghost use Rattle.places.specs.Rows.{rows};
    ghost use Rattle.index.specs.Reading.{rest};

    // All of them.
    pub fn new(index: Index<'a, K>) -> Records<'a, K>
        ensures { rest result ≡ rows index.entry.table.now index.entry.used }
    {
        let positions = 0..index.used;
        Records { index, positions }
    }
}

impl<K: Key> Iterator for Records<'_, K> {
    ghost use Rattle.std.specs.Iterator.{YieldsFirst, item_count};
    ghost use Rattle.index.specs.Reading.{rest};

    type Item = Record<K>;

    ghost next_gives = { YieldsFirst rest };

    ghost remaining = { item_count rest };

    fn next(&mut self) -> Option<Record<K>> {
        let position = self.positions.next()?;
        Some(self.index.record_at(position))
    }
}
