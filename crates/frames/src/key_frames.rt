//! Frames of keys: 03 adds, 04 retracts. For every kind of key.
ghost use Rattle.std.specs.Prelude.{◌≡◌, ◌%◌, length};

use super::head::{Allowed, Change, Kind, head};
use keys::key::Key;
use refusals::Refusal;
use std::marker::PhantomData;

// The keys of a frame that are left, in order. It borrows the frame's bytes.
#[derive(Drop)]
pub struct Keys<'a, K: Key> {
    change: Change,
    // the bytes of the keys that are left
    rest: &'a [u8],
    kind: PhantomData<K>,
    pub ghost whole: { length rest.now % K.Key.BYTES ≡ 0 },
}

impl<'a, K: Key> Keys<'a, K> {
    ghost use Rattle.std.specs.Prelude.{Ok, Err, MatchResult};
    ghost use Rattle.frames.specs.Keys.{keys_of};
    ghost use Rattle.frames.specs.OfKeys.{left_keys};

    // Checks the whole frame: 2, 3, 4, 5 and 4, in this order.
    #[tactic(auto, using(crate::proofs::Keying::keys_behind, crate::proofs::Heading::head_of_keys))]
    pub fn check(frame: &'a [u8], allowed: Allowed) -> Result<Keys<'a, K>, Refusal>
        ensures { MatchResult result (λ s. keys_of K.Key.BYTES K.Key.key allowed frame.now ≡ Ok (s.change, left_keys s)) (λ e. keys_of K.Key.BYTES K.Key.key allowed frame.now ≡ Err e) }
    {
        let Kind::Keys(change) = Kind::of(frame)? else {
            return Err(Refusal::Kind);
        };
        let (count, rest) = head(frame, change, allowed, 40)?;
        if rest.len() != count * K::BYTES {
            return Err(Refusal::Length);
        }
        Ok(Keys {
            change,
            rest,
            kind: PhantomData,
        })
    }

    // Whether the keys are added or retracted.
    pub fn change(&self) -> Change
        ensures { result ≡ self.now.change }
    {
        self.change
    }
}

impl<K: Key> Iterator for Keys<'_, K> {
    ghost use Rattle.std.specs.Iterator.{YieldsFirst, item_count};
    ghost use Rattle.frames.specs.OfKeys.{left_keys};

    type Item = K;

    // the first that is left comes, and the change stays
    ghost next_gives = { λ s r t. YieldsFirst left_keys s r t × (t.change ≡ s.change) };

    ghost remaining = { item_count left_keys };

    #[tactic(auto, using(crate::proofs::Keying::keys_more, crate::proofs::Keying::keys_end))]
    fn next(&mut self) -> Option<K> {
        let (first, rest) = self.rest.split_at_checked(K::BYTES)?;
        self.rest = rest;
        K::read(first)
    }
}
