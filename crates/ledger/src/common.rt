//! The entries of a report, in key order.
ghost use Rattle.std.specs.Prelude.{◌≡◌, ◌<◌, ◌≤◌, length, slice_set};
ghost use Rattle.index.specs.Reading.{rest};
ghost use Rattle.ledger_rules.specs.Ledgers.{report_of};
ghost use Rattle.ledger.specs.OfLedger.{state_of};
ghost use Rattle.ledger.specs.Reports.{Written, common_entry};

use super::Ledger;
use counting::{Record, bounds_of};
use index::records::Records;
use keys::key::Key;
use ledger_rules::Entry;

// The entry of a record, if its high reaches the threshold.
fn common_entry<K: Copy>(record: Record<K>, threshold: u32) -> Option<Entry<K>>
    ensures { result ≡ common_entry threshold «record» }
{
    let (low, high) = bounds_of(record);
    if high < threshold {
        return None;
    }
    Some(Entry {
        key: record.key,
        low,
        high,
    })
}

// Writes one place of the buffer. In the loop itself the size of an entry over any kind of key stays a goal.
fn set_entry<K: Copy>(out: &mut [Entry<K>], n: usize, entry: Entry<K>)
    requires { n < length out.old }
    ensures { out.new ≡ slice_set out.old n entry }
{
    out[n] = entry;
}

impl<K: Key> Ledger<K> {
    // How many keys are held.
    pub fn len(&self) -> usize
        ensures { result ≡ length (state_of self.now).book.records }
    {
        self.books.len(0).unwrap()
    }

    // What it holds of each, in key order.
    fn records(&self) -> Records<'_, K>
        ensures { rest result ≡ (state_of self.now).book.records }
    {
        self.books.records(0).unwrap()
    }

    // How many entries a report has.
    pub(crate) fn count_common(&self, threshold: u32) -> usize
        ensures { result ≡ length (report_of threshold (state_of self.now)) }
    {
        self.records()
            .filter_map(|record| common_entry(record, threshold))
            .count()
    }

    // Writes them in front of the buffer, and answers how many: n counts the entries, which are fewer than the records.
    pub(crate) fn write_common(&self, threshold: u32, out: &mut [Entry<K>]) -> usize
        requires { length (report_of threshold (state_of self.now)) ≤ length out.old }
        ensures count { result ≡ length (report_of threshold (state_of self.now)) }
        ensures written { Written (report_of threshold (state_of self.now)) result out.old out.new }
    {
        let mut n = 0;
        for record in self.records() {
            if let Some(entry) = common_entry(record, threshold) {
                set_entry(out, n, entry);
                n += 1;
            }
        }
        n
    }
}
