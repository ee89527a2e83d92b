//! Feeds of key frames.
ghost use Rattle.std.specs.Prelude.{◌≡◌, ℕ, ◌≤◌, List, ◌∷◌, length, Err, ◌≢◌};
ghost use Rattle.refusals.specs.declared.Refusal.{Refusal as RefusalOf};
ghost use Rattle.refusals.specs.declared.Fault.TheVariants.{Frame};
ghost use Rattle.frames.specs.OfKeys.{left_keys};
ghost use Rattle.ledger_rules.specs.Ledgers.{answer_to, after, feed_keys, feed_of};
ghost use Rattle.ledger_rules.specs.Tallies.{Event, feed_event};
ghost use Rattle.ledger.specs.OfLedger.{state_of, Unchanged, Beside, Reached};

use super::Ledger;
use frames::head::{Allowed, Change};
use frames::key_frames::Keys;
use keys::key::Key;
use refusals::{Fault, Refusal};

impl<K: Key> Ledger<K> {
    // Adds or retracts the key.
    fn change(&mut self, change: Change, key: K) -> Result<(), Refusal>
        ensures beside { Beside self.old self.new }
        ensures exact { (result ≡ answer_to K.Key.before (state_of self.old) change key) × (state_of self.new ≡ after K.Key.before (state_of self.old) change key) }
    {
        match change {
            Change::Added => self.add(key),
            Change::Retracted => self.retract(key),
        }
    }

    // Takes the keys of a frame in order, up to the first that is refused. How many is one byte, as in the answer and in
    // the fault.
    fn take_keys(&mut self, keys: Keys<'_, K>) -> Result<u8, Fault>
        requires { length (left_keys keys) ≤ 40 }
        ensures sample { (e : RefusalOf) → result ≢ Err (Frame e) }
        ensures beside { Beside self.old self.new }
        ensures exact { (result ≡ (feed_keys K.Key.before (state_of self.old) keys.entry.change (left_keys keys.entry) 0).0) × (state_of self.new ≡ (feed_keys K.Key.before (state_of self.old) keys.entry.change (left_keys keys.entry) 0).1) }
    {
        let change = keys.change();
        let mut taken = 0;
        for key in keys {
            self.change(change, key).map_err(|cause| Fault::Sample {
                cause,
                index: taken,
                taken,
            })?;
            taken += 1;
        }
        Ok(taken)
    }

    // Feeds a frame of kind 03 (added) or 04 (retracted): its whole check first, then key by key up to the first that is
    // refused. What was taken stays taken. Answers how many were taken.
    pub fn feed(&mut self, frame: &[u8]) -> Result<u8, Fault>
        ensures refused { (e : RefusalOf) → result ≡ Err (Frame e) → Unchanged self.old self.new }
        ensures beside { Beside self.old self.new }
        ensures exact { (result ≡ (feed_of K.Key (state_of self.old) frame.now).0) × (state_of self.new ≡ (feed_of K.Key (state_of self.old) frame.now).1) }
        ensures run { (es : List (Event K)) → Reached es self.old → Reached (feed_event frame.now result ∷ es) self.new }
    {
        let keys = Keys::check(frame, Allowed::BOTH)?;
        self.take_keys(keys)
    }
}
