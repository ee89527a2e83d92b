//! The counting rule: what puts and takes leave of a book's records, and what that tells of every key over whole
//! runs of calls. Knows keys and refusals, and nothing of tables.
#![tactic(auto)]

ghost use Rattle.std.specs.Prelude.{◌≡◌};
ghost use Rattle.counting.specs.Bounds.{low_of, high_of};

pub mod laws;

// What a book holds of one key.
#[derive(Clone, Copy, PartialEq, Eq, Debug)]
pub struct Record<K> {
    pub key: K,
    // count in: puts since the record was made, and what its key may have had before
    pub ins: u32,
    // count out: takes since the record was made
    pub outs: u32,
    // how much of the count in may be another key's
    pub slack: u32,
}

// The low and the high bound that a record tells: a pair, as the bounds of every definition and theorem are.
pub fn bounds_of<K: Copy>(record: Record<K>) -> (u32, u32)
    ensures { (result.0 ≡ low_of «record».ins «record».outs «record».slack) × (result.1 ≡ high_of «record».ins «record».outs) }
{
    let high = record.ins.saturating_sub(record.outs);
    (high.saturating_sub(record.slack), high)
}
