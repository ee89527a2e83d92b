//! A tag ledger, for every kind of key: the commonest keys of a day, with retractions anywhere. Every call takes every input.
//! Knows books, key frames and the rules of a ledger.
#![tactic(auto)]

ghost use Rattle.std.specs.Prelude.{◌≡◌, ℕ, ◌≤◌};
ghost use Rattle.books.specs.OfBooks.{count};

use books::Books;
use keys::key::Key;

mod ask;
mod common;
mod feed;
mod open;
mod work;

pub use books::OpenRefused;

// One book, whose accepted puts are the adds; how many retracts it takes for each thousand adds; how many it has taken.
#[derive(Drop)]
pub struct Ledger<K: Key> {
    books: Books<K>,
    share: u16,
    retracts: u32,
    ghost one: { count books ≡ 1 },
    ghost small: { share ≤ 999 },
}
