//! Books, offered: one or more books of one width in one table, book r in the part that starts at place r × width.
//! Every call takes every input. Knows the book over a lent table.
#![tactic(auto)]

ghost use Rattle.std.specs.Prelude.{ℕ, ◌*◌, ◌≤◌, vec_len};
ghost use Rattle.std.specs.Coded.{Π_prop};
ghost use Rattle.book.specs.Sound.{IsBook, IsBook-prop};
ghost use Rattle.books.specs.Parts.{part, used_at, total_at};

use keys::key::Key;
use places::place::Place;
use refusals::Refusal;

mod ask;
pub mod fill;
mod open;
mod work;

use fill::Fill;

// The least width of a book, and the greatest.
pub const NARROWEST: usize = 2;

pub const WIDEST: usize = 1024;

// Book r has the part of the table that starts at place r × width. Table and fills are handed over, since nothing is
// allocated here.
#[derive(Drop)]
pub struct Books<K: Key> {
    table: Vec<Place<K>>,
    fills: Vec<Fill>,
    width: usize,
    ghost wide: { 2 ≤ width },
    ghost narrow: { width ≤ 1024 },
    ghost room: { vec_len fills * width ≤ vec_len table },
    pub ghost each: { (r : ℕ) → IsBook K.Key.before (part table.items width r) (used_at fills.items r) (total_at fills.items r) } by { Π_prop (λ r. IsBook-prop K.Key.before (part table.items width r) (used_at fills.items r) (total_at fills.items r)) },
}

// A refused opening: why, and what was handed over, as it was.
#[derive(Drop)]
pub struct OpenRefused<K> {
    pub refusal: Refusal,
    pub table: Vec<Place<K>>,
    pub fills: Vec<Fill>,
}
