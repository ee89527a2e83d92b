//! Opening and taking apart.
ghost use Rattle.std.specs.Prelude.{◌≡◌, Some, None, vec_len, MatchResult};
ghost use Rattle.ledger.specs.Openings.{open_refusal, Emptied};

use super::Ledger;
use books::fill::Fill;
use books::{Books, NARROWEST, OpenRefused, WIDEST};
use keys::key::Key;
use places::place::Place;
use refusals::Refusal;

const MOST: u16 = 999;

impl<K: Key> Ledger<K> {
    // Opens an empty ledger: 11 if the width is not 2 to 1,024, then 12 if the share is above 999, then 14 if the table is
    // too short for the width, or there is no fill. No place is written; of the fills the first is used.
    pub fn open(
        table: Vec<Place<K>>,
        mut fills: Vec<Fill>,
        width: usize,
        share: u16,
    ) -> Result<Ledger<K>, OpenRefused<K>>
        ensures { MatchResult result (λ l. (open_refusal width share (vec_len table) (vec_len fills) ≡ None) × Emptied table.items width share l) (λ e. (open_refusal width share (vec_len table) (vec_len fills) ≡ Some e.refusal) × (e.table ≡ table) × (e.fills ≡ fills)) }
    {
        if let Some(refusal) = why_not(width, share, table.len(), fills.len()) {
            return Err(OpenRefused {
                refusal,
                table,
                fills,
            });
        }
        fills.truncate(1);
        let books = Books::open(table, fills, width)?;
        Ok(Ledger {
            books,
            share,
            retracts: 0,
        })
    }

    // Gives the table and the fill back.
    pub fn into_parts(self) -> (Vec<Place<K>>, Vec<Fill>)
        ensures { (result.0 ≡ self.books.table) × (result.1 ≡ self.books.fills) }
    {
        let Ledger {
            books,
            share: _,
            retracts: _,
        } = self;
        books.into_parts()
    }
}

// Why an opening is refused, if it is.
fn why_not(width: usize, share: u16, places: usize, fills: usize) -> Option<Refusal>
    ensures { result ≡ open_refusal width share places fills }
{
    if width < NARROWEST || width > WIDEST {
        return Some(Refusal::Width);
    }
    if share > MOST {
        return Some(Refusal::ShareRange);
    }
    if places < width || fills < 1 {
        return Some(Refusal::Short);
    }
    None
}
