//! Questions.
ghost use Rattle.std.specs.Prelude.{◌≡◌, ℕ, ◌<◌, ◌≤◌, List, length, if◌then◌else◌, Ok, Err, MatchResult, nat_lt};
ghost use Rattle.std.specs.List.{slice_get};
ghost use Rattle.refusals.specs.declared.Refusal.TheVariants.{Row};
ghost use Rattle.counting.specs.Book as Rule;
ghost use Rattle.counting.specs.Runs.{Event};
ghost use Rattle.counting.specs.Laws.{Encloses, Lawful};
ghost use Rattle.index.specs.Reading.{rest};
ghost use Rattle.book.specs.Sound.{book_in};
ghost use Rattle.books.specs.OfBooks.{count, book_of, Reached};

use super::Books;
use book::read::Book;
use counting::Record;
use index::records::Records;
use keys::key::Key;
use refusals::Refusal;

impl<K: Key> Books<K> {
    // Book r, to read.
    fn book(&self, r: usize) -> Result<Book<'_, K>, Refusal>
        ensures { MatchResult result (λ b. (r < count self.now) × (book_in b.table.now b.used b.total ≡ book_of self.now r)) (λ e. (count self.now ≤ r) × (e ≡ Row)) }
    {
        if r >= self.fills.len() {
            return Err(Refusal::Row);
        }
        let fill = self.fills[r];
        Ok(Book {
            table: &self.table[r * self.width..(r + 1) * self.width],
            used: fill.used,
            total: fill.total,
        })
    }

    // How many books there are.
    pub fn count(&self) -> usize
        ensures { result ≡ count self.now }
    {
        self.fills.len()
    }

    // How many places each has.
    pub fn width(&self) -> usize
        ensures { result ≡ self.now.width }
    {
        self.width
    }

    // The accepted puts of book r.
    pub fn total(&self, r: usize) -> Result<u32, Refusal>
        ensures { result ≡ (if nat_lt r (count self.now) then Ok (book_of self.now r).total else Err Row) }
    {
        Ok(self.book(r)?.total)
    }

    // How many records book r holds.
    pub fn len(&self, r: usize) -> Result<usize, Refusal>
        ensures { result ≡ (if nat_lt r (count self.now) then Ok (length (book_of self.now r).records) else Err Row) }
    {
        Ok(self.book(r)?.len())
    }

    // The record at position i in key order, of book r.
    pub fn record(&self, r: usize, i: usize) -> Result<Option<Record<K>>, Refusal>
        ensures { result ≡ (if nat_lt r (count self.now) then Ok (slice_get (book_of self.now r).records i) else Err Row) }
    {
        Ok(self.book(r)?.record(i))
    }

    // The records of book r, one by one in key order.
    pub fn records(&self, r: usize) -> Result<Records<'_, K>, Refusal>
        ensures { MatchResult result (λ records. (r < count self.now) × (rest records ≡ (book_of self.now r).records)) (λ e. (count self.now ≤ r) × (e ≡ Row)) }
    {
        Ok(self.book(r)?.records())
    }

    // The ceiling of book r: 0 while a place is empty, else the least count in. After every run it is lawful.
    pub fn ceiling(&self, r: usize) -> Result<u32, Refusal>
        ensures row { count self.now ≤ r → result ≡ Err Row }
        ensures exact { r < count self.now → result ≡ Ok (Rule.ceiling (book_of self.now r)) }
        ensures law { (es : List (Event K)) → Reached es self.now r → Lawful K.Key.before es (book_of self.now r) }
    {
        Ok(self.book(r)?.ceiling())
    }

    // The low and the high bound of a key in book r. After every run they enclose its puts less its takes.
    pub fn bounds(&self, r: usize, key: K) -> Result<(u32, u32), Refusal>
        ensures row { count self.now ≤ r → result ≡ Err Row }
        ensures exact { r < count self.now → result ≡ Ok (Rule.bounds K.Key.before (book_of self.now r) key) }
        ensures law { (es : List (Event K)) (low high : ℕ) → Reached es self.now r → result ≡ Ok (low, high) → Encloses K.Key.before es key low high }
    {
        Ok(self.book(r)?.bounds(key))
    }
}
