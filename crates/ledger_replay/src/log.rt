//! A call of a ledger, with its answer.
use refusals::{Fault, Refusal};

#[derive(Clone, Copy)]
pub enum Logged<'a, K> {
    Add(K, Result<(), Refusal>),
    Retract(K, Result<(), Refusal>),
    Feed(&'a [u8], Result<u8, Fault>),
}
