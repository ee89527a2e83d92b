//! A book to read.
ghost use Rattle.std.specs.Prelude.{◌≡◌, ◌<◌, length, is_ok, MatchResult};
ghost use Rattle.std.specs.List.{slice_get};
ghost use Rattle.counting.specs.Book as Rule;
ghost use Rattle.counting.specs.Rule.{held};
ghost use Rattle.places.specs.Columns.{records};
ghost use Rattle.places.specs.Rows.{rows};
ghost use Rattle.index.specs.Search.{Gap, Holds};
ghost use Rattle.book.specs.Sound.{IsBook, IsBook-prop, book_in};
ghost use Rattle.index.specs.Reading.{rest};

use counting::{Record, bounds_of};
use heap::least_count;
use index::records::Records;
use index::search::Index;
use keys::key::Key;
use places::place::Place;
use places::record_at;

// A lent table, of which the first `used` places hold records, and how many puts were accepted. Two numbers, and not the
// room above's fill, which this room does not know.
#[derive(Drop)]
pub struct Book<'a, K: Key> {
    pub table: &'a [Place<K>],
    pub used: usize,
    pub total: u32,
    ghost wide: { 0 < length table.now },
    pub ghost kept: { IsBook K.Key.before table.now used total } by { IsBook-prop K.Key.before table.now used total },
}

impl<'a, K: Key> Book<'a, K> {
    fn index(&self) -> Index<'a, K>
        ensures { (result.table.now ≡ self.now.table.now) × (result.used ≡ self.now.used) }
    {
        Index {
            table: self.table,
            used: self.used,
        }
    }

    // The place of the key, else the position where it would enter. The hint at `slot` is tried first.
    pub(crate) fn find(&self, slot: usize, key: K) -> Result<usize, usize>
        requires slot { slot < length self.now.table.now }
        ensures found { MatchResult result (Holds (records self.now.table.now) self.now.used key) (Gap K.Key.before (rows self.now.table.now self.now.used) key) }
        ensures exact { is_ok result ≡ held K.Key.before key (rows self.now.table.now self.now.used) }
    {
        self.index().find(slot, key)
    }

    // How many records it holds.
    pub fn len(&self) -> usize
        ensures { result ≡ length (book_in self.now.table.now self.now.used self.now.total).records }
    {
        self.used
    }

    // The record at position i in key order.
    pub fn record(&self, i: usize) -> Option<Record<K>>
        ensures { result ≡ slice_get (book_in self.now.table.now self.now.used self.now.total).records i }
    {
        if i >= self.used {
            return None;
        }
        Some(self.index().record_at(i))
    }

    // The records in key order.
    pub fn records(&self) -> Records<'a, K>
        ensures { rest result ≡ (book_in self.now.table.now self.now.used self.now.total).records }
    {
        Records::new(self.index())
    }

    // 0 while a place is empty, else the least count in.
    pub fn ceiling(&self) -> u32
        ensures { result ≡ Rule.ceiling (book_in self.now.table.now self.now.used self.now.total) }
    {
        if self.used < self.table.len() {
            return 0;
        }
        least_count(self.table, self.used)
    }

    // The low and the high bound of a key.
    pub fn bounds(&self, key: K) -> (u32, u32)
        ensures { result ≡ Rule.bounds K.Key.before (book_in self.now.table.now self.now.used self.now.total) key }
    {
        let slot = key.slot() % self.table.len();
        match self.find(slot, key) {
            Ok(place) => bounds_of(record_at(self.table, place)),
            Err(_) => (0, self.ceiling()),
        }
    }
}
