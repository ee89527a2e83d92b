//! Adds and retracts.
ghost use Rattle.std.specs.Prelude.{◌≡◌, false, List, ◌∷◌, is_ok};
ghost use Rattle.frames.specs.declared.head.Change.TheVariants.{Added, Retracted};
ghost use Rattle.ledger_rules.specs.Ledgers.{adds, answer_to, after};
ghost use Rattle.ledger_rules.specs.Tallies.{Event, change_event};
ghost use Rattle.ledger.specs.OfLedger.{state_of, Unchanged, Beside, Reached};

use super::Ledger;
use frames::head::Change;
use keys::key::Key;
use refusals::Refusal;

impl<K: Key> Ledger<K> {
    // The adds taken.
    pub fn adds(&self) -> u32
        ensures { result ≡ adds (state_of self.now) }
    {
        self.books.total(0).unwrap()
    }

    // Adds the key: 22 if the adds are at their limit.
    pub fn add(&mut self, key: K) -> Result<(), Refusal>
        ensures answer { result ≡ answer_to K.Key.before (state_of self.old) Added key }
        ensures refused { is_ok result ≡ false → Unchanged self.old self.new }
        ensures beside { Beside self.old self.new }
        ensures exact { state_of self.new ≡ after K.Key.before (state_of self.old) Added key }
        ensures run { (es : List (Event K)) → Reached es self.old → Reached (change_event Added key result ∷ es) self.new }
    {
        self.books.put(0, key)
    }

    // Retracts the key: 8 if that is above the share, then 9 if its high is 0.
    pub fn retract(&mut self, key: K) -> Result<(), Refusal>
        ensures refused { is_ok result ≡ false → Unchanged self.old self.new }
        ensures beside { Beside self.old self.new }
        ensures exact { (result ≡ answer_to K.Key.before (state_of self.old) Retracted key) × (state_of self.new ≡ after K.Key.before (state_of self.old) Retracted key) }
        ensures run { (es : List (Event K)) → Reached es self.old → Reached (change_event Retracted key result ∷ es) self.new }
    {
        let next = 1000 * (u64::from(self.retracts) + 1);
        if next > u64::from(self.share) * u64::from(self.adds()) {
            return Err(Refusal::Share);
        }
        self.books.take(0, key)?;
        self.retracts += 1;
        Ok(())
    }
}
