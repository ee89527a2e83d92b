//! Frames: what a string of bytes says, sample by sample, and why it is refused. Knows keys and refusals; nothing of
//! days or ledgers.
#![tactic(auto)]

mod bits;
pub mod head;
pub mod key_frames;
pub mod readings;
pub mod scale;
