//! Replays: a list of calls is made in turn on a fresh ledger, each answer is noted beside its call, and a report is asked for.
//! Knows ledgers.
#![tactic(auto)]

pub mod log;
pub mod replay;
