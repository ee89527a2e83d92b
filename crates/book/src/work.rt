//! A book to work on.
ghost use Rattle.std.specs.Prelude.{◌≡◌, ◌+◌, ◌<◌, ◌≤◌, false, length, is_ok};
ghost use Rattle.counting.specs.Rule.{raised, at_key, fresh, enter, leave, put_rule};
ghost use Rattle.counting.specs.Rule as Rule;
ghost use Rattle.counting.specs.Book.{Put, Taken};
ghost use Rattle.places.specs.Columns.{records, counts};
ghost use Rattle.places.specs.Rows.{rows};
ghost use Rattle.index.specs.Search.{Gap, Holds};
ghost use Rattle.book.specs.Sound.{Ahead, IsBook, IsBook-prop, book_in};

use super::read::Book;
use counting::{Record, bounds_of};
use heap::{least, push, refresh};
use index::change::{amend, append, evict};
use keys::key::Key;
use places::place::Place;
use places::{count_at, record_at, set_hint};
use refusals::Refusal;

// How many puts a book accepts.
const LIMIT: u32 = 16_777_215;

// A lent table, of which the first `used` places hold records, and how many puts were accepted.
#[derive(Drop)]
pub struct BookMut<'a, K: Key> {
    pub table: &'a mut [Place<K>],
    pub used: usize,
    pub total: u32,
    ghost wide: { 0 < length table.now },
    ghost narrow: { length table.now ≤ 1024 },
    pub ghost kept: { IsBook K.Key.before table.now used total } by { IsBook-prop K.Key.before table.now used total },
}

impl<K: Key> BookMut<'_, K> {
    // The same book, to read.
    pub fn read(&self) -> Book<'_, K>
        ensures { (result.table.now ≡ self.now.table.now) × (result.used ≡ self.now.used) × (result.total ≡ self.now.total) }
    {
        Book {
            table: &*self.table,
            used: self.used,
            total: self.total,
        }
    }
}

// Each method below says that its table is still the one that was lent: one on `&mut self` could put another in its place.

// Puts. A put is counted first, and then carried out: until then no count in is at the total.
impl<K: Key> BookMut<'_, K> {
    // One more in for the record of a place.
    fn raise(&mut self, place: usize)
        requires counted { Ahead self.old.table.now self.old.used self.old.total }
        requires there { place < self.old.used }
        ensures same_table { self.new.table.ghost_name ≡ self.old.table.ghost_name }
        ensures fill { (self.new.used ≡ self.old.used) × (self.new.total ≡ self.old.total) }
        ensures long { length self.new.table.now ≡ length self.old.table.now }
        ensures rows { (x : K) → Holds (records self.old.table.now) self.old.used x place → rows self.new.table.now self.new.used ≡ at_key K.Key.before x raised (rows self.old.table.now self.old.used) }
    {
        let table = &mut *self.table;
        let was = record_at(table, place);
        let raised = Record {
            ins: was.ins + 1,
            ..was
        };
        amend(table, place, raised);
        refresh(table, self.used);
    }

    // A record for a new key while a place is empty; `at` is where the key stands in key order.
    fn enter_new(&mut self, at: usize, key: K) -> usize
        requires counted { Ahead self.old.table.now self.old.used self.old.total }
        requires room { self.old.used < length self.old.table.now }
        requires gap { Gap K.Key.before (rows self.old.table.now self.old.used) key at }
        ensures within { result < self.new.used }
        ensures same_table { self.new.table.ghost_name ≡ self.old.table.ghost_name }
        ensures total { self.new.total ≡ self.old.total }
        ensures long { length self.new.table.now ≡ length self.old.table.now }
        ensures rows { rows self.new.table.now self.new.used ≡ enter K.Key.before (fresh key 0) (rows self.old.table.now self.old.used) }
    {
        let table = &mut *self.table;
        append(
            table,
            self.used,
            at,
            Record {
                key,
                ins: 1,
                outs: 0,
                slack: 0,
            },
        );
        push(table, self.used);
        let place = self.used;
        self.used += 1;
        place
    }

    // The record with the least count in, of these the one with the least key, gives its place to one for a new key.
    fn replace_least(&mut self, at: usize, key: K) -> usize
        requires counted { Ahead self.old.table.now self.old.used self.old.total }
        requires some { 0 < self.old.used }
        requires gap { Gap K.Key.before (rows self.old.table.now self.old.used) key at }
        ensures within { result < self.new.used }
        ensures same_table { self.new.table.ghost_name ≡ self.old.table.ghost_name }
        ensures total { self.new.total ≡ self.old.total }
        ensures long { length self.new.table.now ≡ length self.old.table.now }
        ensures rows { rows self.new.table.now self.new.used ≡ enter K.Key.before (fresh key (Rule.least (rows self.old.table.now self.old.used))) (leave (Rule.least (rows self.old.table.now self.old.used)) (rows self.old.table.now self.old.used)) }
    {
        let table = &mut *self.table;
        let place = least(table, self.used);
        let count = count_at(table, place);
        evict(
            table,
            self.used,
            place,
            at,
            Record {
                key,
                ins: count + 1,
                outs: 0,
                slack: count,
            },
        );
        refresh(table, self.used);
        place
    }

    // Carries the put out, and answers the key's place.
    fn carry_out(&mut self, slot: usize, key: K) -> usize
        requires counted { Ahead self.old.table.now self.old.used self.old.total }
        requires slot { slot < length self.old.table.now }
        ensures within { result < self.new.used }
        ensures same_table { self.new.table.ghost_name ≡ self.old.table.ghost_name }
        ensures total { self.new.total ≡ self.old.total }
        ensures long { length self.new.table.now ≡ length self.old.table.now }
        ensures rows { rows self.new.table.now self.new.used ≡ put_rule K.Key.before (length self.old.table.now) (rows self.old.table.now self.old.used) key }
    {
        let found = self.read().find(slot, key);
        match found {
            Ok(place) => {
                self.raise(place);
                place
            }
            Err(at) => {
                if self.used < self.table.len() {
                    self.enter_new(at, key)
                } else {
                    self.replace_least(at, key)
                }
            }
        }
    }

    // Puts the key: 22 if the total is at the limit.
    pub fn put(&mut self, key: K) -> Result<(), Refusal>
        ensures same_table { self.new.table.ghost_name ≡ self.old.table.ghost_name }
        ensures refused { is_ok result ≡ false → (self.new.table.now ≡ self.old.table.now) × (self.new.used ≡ self.old.used) × (self.new.total ≡ self.old.total) }
        ensures exact { Put K.Key.before (book_in self.old.table.now self.old.used self.old.total) key result (book_in self.new.table.now self.new.used self.new.total) }
    {
        if self.total == LIMIT {
            return Err(Refusal::Full);
        }
        self.total += 1;
        let slot = key.slot() % self.table.len();
        let place = self.carry_out(slot, key);
        set_hint(self.table, slot, place as u32);
        Ok(())
    }
}

// Takes.
impl<K: Key> BookMut<'_, K> {
    // One more out for the record of a place, unless its high is 0.
    fn take_held(&mut self, slot: usize, place: usize, key: K) -> Result<(), Refusal>
        requires slot { slot < length self.old.table.now }
        requires holds { Holds (records self.old.table.now) self.old.used key place }
        ensures same_table { self.new.table.ghost_name ≡ self.old.table.ghost_name }
        ensures fill { (self.new.used ≡ self.old.used) × (self.new.total ≡ self.old.total) }
        ensures refused { is_ok result ≡ false → self.new.table.now ≡ self.old.table.now }
        ensures counts { counts (records self.new.table.now) ≡ counts (records self.old.table.now) }
        ensures exact { Taken K.Key.before (book_in self.old.table.now self.old.used self.old.total) key result (book_in self.new.table.now self.new.used self.new.total) }
    {
        let table = &mut *self.table;
        let was = record_at(table, place);
        let (_, high) = bounds_of(was);
        if high == 0 {
            return Err(Refusal::Absent);
        }
        let lowered = Record {
            outs: was.outs + 1,
            ..was
        };
        amend(table, place, lowered);
        set_hint(table, slot, place as u32);
        Ok(())
    }

    // Takes the key: 9 if its high is 0, and no effect on one that is not held.
    pub fn take(&mut self, key: K) -> Result<(), Refusal>
        ensures same_table { self.new.table.ghost_name ≡ self.old.table.ghost_name }
        ensures fill { (self.new.used ≡ self.old.used) × (self.new.total ≡ self.old.total) }
        ensures refused { is_ok result ≡ false → self.new.table.now ≡ self.old.table.now }
        ensures counts { counts (records self.new.table.now) ≡ counts (records self.old.table.now) }
        ensures exact { Taken K.Key.before (book_in self.old.table.now self.old.used self.old.total) key result (book_in self.new.table.now self.new.used self.new.total) }
    {
        let slot = key.slot() % self.table.len();
        let found = self.read().find(slot, key);
        match found {
            Ok(place) => self.take_held(slot, place, key),
            Err(_) => {
                if self.read().ceiling() == 0 {
                    return Err(Refusal::Absent);
                }
                Ok(())
            }
        }
    }
}
