//! Questions.
ghost use Rattle.std.specs.Prelude.{◌≡◌, ℕ, ◌-◌, ◌≤◌, List, length, take, Ok, MatchResult};
ghost use Rattle.counting.specs.Book as Rule;
ghost use Rattle.ledger_rules.specs.Laws.{Encloses, Narrow, ReportLaw, Lawful};
ghost use Rattle.ledger_rules.specs.Ledgers.{adds, report_of, report_answer};
ghost use Rattle.ledger_rules.specs.Tallies.{Event};
ghost use Rattle.ledger.specs.OfLedger.{state_of, Reached};
ghost use Rattle.ledger.specs.Reports.{Written};

use super::Ledger;
use keys::key::Key;
use ledger_rules::Entry;
use refusals::Refusal;

impl<K: Key> Ledger<K> {
    // The retracts taken.
    pub fn retracts(&self) -> u32
        ensures { result ≡ self.now.retracts }
    {
        self.retracts
    }

    // The retracts that it takes for each thousand adds.
    pub fn share(&self) -> u16
        ensures { result ≡ self.now.share }
    {
        self.share
    }

    // The adds less the retracts. After every list of calls retracts are at most adds, and both are those of the tally.
    pub fn live(&self) -> u32
        ensures exact { result ≡ adds (state_of self.now) - self.now.retracts }
        ensures law { (es : List (Event K)) → Reached es self.now → Lawful K.Key es (state_of self.now) }
    {
        self.adds().saturating_sub(self.retracts)
    }

    // What a key that is not held may have had.
    pub fn ceiling(&self) -> u32
        ensures { result ≡ Rule.ceiling (state_of self.now).book }
    {
        self.books.ceiling(0).unwrap()
    }

    // The low and the high bound of a key. After every list of calls they enclose its live count, and are not far apart.
    pub fn bounds(&self, key: K) -> (u32, u32)
        ensures exact { result ≡ Rule.bounds K.Key.before (state_of self.now).book key }
        ensures law { (es : List (Event K)) → Reached es self.now → Encloses K.Key es key result.0 result.1 × Narrow K.Key es self.now.books.width self.now.share result.0 result.1 }
    {
        self.books.bounds(0, key).unwrap()
    }

    // Writes, in key order, the held keys whose high reaches the threshold, with their bounds, in front of the buffer, and
    // answers how many: 18 if the threshold is not above the ceiling, then 19 if the buffer is too short for them. A
    // refused report writes nothing. After every list of calls no key is missed whose live count reaches the threshold,
    // and the bounds of each listed one enclose it. A number, and not a slice of the buffer: so the contract can say what
    // the buffer holds behind the list.
    pub fn report(&self, threshold: u32, out: &mut [Entry<K>]) -> Result<usize, Refusal>
        ensures exact { result ≡ report_answer (state_of self.now) threshold (length out.old) }
        ensures written { MatchResult result (λ n. Written (report_of threshold (state_of self.now)) n out.old out.new) (λ _. out.new ≡ out.old) }
        ensures law { (es : List (Event K)) (n : ℕ) → Reached es self.now → result ≡ Ok n → ReportLaw K.Key es threshold (take n out.new) }
    {
        if threshold <= self.ceiling() {
            return Err(Refusal::Threshold);
        }
        if self.count_common(threshold) > out.len() {
            return Err(Refusal::Buffer);
        }
        Ok(self.write_common(threshold, out))
    }
}
