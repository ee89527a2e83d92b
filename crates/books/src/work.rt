//! Puts and takes.
ghost use Rattle.std.specs.Prelude.{◌≡◌, ℕ, ◌<◌, ◌≤◌, false, ◌≢◌, List, ◌∷◌, length, is_ok, Ok, Err};
ghost use Rattle.refusals.specs.declared.Refusal.TheVariants.{Row};
ghost use Rattle.counting.specs.Book.{Put, Taken};
ghost use Rattle.counting.specs.Runs.{Event, put_of, take_of};
ghost use Rattle.book.specs.Sound.{IsBook, book_in};
ghost use Rattle.books.specs.OfBooks.{count, book_of, put_at, Unchanged, Beside, Reached};

use super::Books;
use super::fill::Fill;
use book::work::BookMut;
use keys::key::Key;
use places::place::Place;
use refusals::Refusal;

// Puts the key into the book that these places and this fill are. A function of its own: of a `BookMut` that is made over
// a part of a `Vec` a proof does not know, in the same function, what it wrote.
fn put_in<K: Key>(table: &mut [Place<K>], fill: &mut Fill, key: K) -> Result<(), Refusal>
    requires width { (0 < length table.old) × (length table.old ≤ 1024) }
    requires kept { IsBook K.Key.before table.old fill.old.used fill.old.total }
    ensures kept { IsBook K.Key.before table.new fill.new.used fill.new.total }
    ensures refused { is_ok result ≡ false → (table.new ≡ table.old) × (fill.new ≡ fill.old) }
    ensures exact { Put K.Key.before (book_in table.old fill.old.used fill.old.total) key result (book_in table.new fill.new.used fill.new.total) }
{
    let mut book = BookMut {
        table,
        used: fill.used,
        total: fill.total,
    };
    book.put(key)?;
    *fill = Fill {
        used: book.used,
        total: book.total,
    };
    Ok(())
}

// Takes the key from it.
fn take_from<K: Key>(table: &mut [Place<K>], fill: Fill, key: K) -> Result<(), Refusal>
    requires width { (0 < length table.old) × (length table.old ≤ 1024) }
    requires kept { IsBook K.Key.before table.old fill.used fill.total }
    ensures kept { IsBook K.Key.before table.new fill.used fill.total }
    ensures refused { is_ok result ≡ false → table.new ≡ table.old }
    ensures exact { Taken K.Key.before (book_in table.old fill.used fill.total) key result (book_in table.new fill.used fill.total) }
{
    let mut book = BookMut {
        table,
        used: fill.used,
        total: fill.total,
    };
    book.take(key)
}

impl<K: Key> Books<K> {
    // Puts the key into book r: 20 if there is none, 22 if its total is at the limit.
    pub fn put(&mut self, r: usize, key: K) -> Result<(), Refusal>
        ensures answer { result ≡ put_at self.old r }
        ensures refused { is_ok result ≡ false → Unchanged self.old self.new }
        ensures beside { Beside self.old self.new r }
        ensures exact { r < count self.old → Put K.Key.before (book_of self.old r) key result (book_of self.new r) }
        ensures run { (es : List (Event K)) → Reached es self.old r → Reached (put_of key result ∷ es) self.new r }
        ensures others { (q : ℕ) (es : List (Event K)) → q ≢ r → Reached es self.old q → Reached es self.new q }
    {
        if r >= self.fills.len() {
            return Err(Refusal::Row);
        }
        put_in(
            &mut self.table[r * self.width..(r + 1) * self.width],
            &mut self.fills[r],
            key,
        )
    }

    // Takes the key from book r: 20 if there is none, 9 if its high is 0.
    pub fn take(&mut self, r: usize, key: K) -> Result<(), Refusal>
        ensures row { count self.old ≤ r → result ≡ Err Row }
        ensures refused { is_ok result ≡ false → Unchanged self.old self.new }
        ensures beside { Beside self.old self.new r }
        ensures exact { r < count self.old → Taken K.Key.before (book_of self.old r) key result (book_of self.new r) }
        ensures run { (es : List (Event K)) → Reached es self.old r → Reached (take_of key result ∷ es) self.new r }
        ensures others { (q : ℕ) (es : List (Event K)) → q ≢ r → Reached es self.old q → Reached es self.new q }
    {
        if r >= self.fills.len() {
            return Err(Refusal::Row);
        }
        let fill = self.fills[r];
        take_from(
            &mut self.table[r * self.width..(r + 1) * self.width],
            fill,
            key,
        )
    }
}
