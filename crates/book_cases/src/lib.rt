//! Books by example: the worked examples, refusals and what they leave, both kinds of key. Tests only.
#![tactic(auto)]

#[cfg(test)]
mod examples;
#[cfg(test)]
mod kinds;
#[cfg(test)]
mod refused;
#[cfg(test)]
mod several;
#[cfg(test)]
mod shared;
