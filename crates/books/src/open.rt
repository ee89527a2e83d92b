//! Opening, clearing and taking apart.
ghost use Rattle.std.specs.Prelude.{◌≡◌, ℕ, ◌<◌, Some, None, vec_len, MatchResult};
ghost use Rattle.books.specs.Parts.{used_at, total_at};
ghost use Rattle.books.specs.Openings.{open_refusal, Emptied};

use super::fill::Fill;
use super::{Books, NARROWEST, OpenRefused, WIDEST};
use keys::key::Key;
use places::place::Place;
use refusals::Refusal;

// Every book is empty.
fn empty_all(fills: &mut [Fill])
    ensures { (r : ℕ) → (used_at fills.new r ≡ 0) × (total_at fills.new r ≡ 0) }
{
    for fill in fills.iter_mut() {
        *fill = Fill::empty();
    }
}

impl<K: Key> Books<K> {
    // Opens as many books as there are fills, each empty: 11 if the width is not 2 to 1,024, then 14 if the table is
    // too short for them. No place is written.
    pub fn open(
        table: Vec<Place<K>>,
        mut fills: Vec<Fill>,
        width: usize,
    ) -> Result<Books<K>, OpenRefused<K>>
        ensures { MatchResult result (λ b. (open_refusal width (vec_len table) (vec_len fills) ≡ None) × Emptied table.items (vec_len fills) width b) (λ e. (open_refusal width (vec_len table) (vec_len fills) ≡ Some e.refusal) × (e.table ≡ table) × (e.fills ≡ fills)) }
    {
        if width < NARROWEST || width > WIDEST {
            return Err(OpenRefused {
                refusal: Refusal::Width,
                table,
                fills,
            });
        }
        if table.len() / width < fills.len() {
            return Err(OpenRefused {
                refusal: Refusal::Short,
                table,
                fills,
            });
        }
        empty_all(&mut fills);
        Ok(Books {
            table,
            fills,
            width,
        })
    }

    // Empties every book, as at its opening. No place is written.
    pub fn clear(&mut self)
        ensures { Emptied self.old.table.items (vec_len self.old.fills) self.old.width self.new }
    {
        empty_all(&mut self.fills);
    }

    // Gives the table and the fills back.
    pub fn into_parts(self) -> (Vec<Place<K>>, Vec<Fill>)
        ensures { (result.0 ≡ self.table) × (result.1 ≡ self.fills) }
    {
        let Books {
            table,
            fills,
            width: _,
        } = self;
        (table, fills)
    }
}
