//! Hex lines, the scale, kinds, frames of readings and of keys and the day frame by example, at every edge. Tests only.
#![tactic(auto)]

#[cfg(test)]
mod hex_lines;
#[cfg(test)]
mod key_frames;
#[cfg(test)]
mod kinds;
#[cfg(test)]
mod numbers;
#[cfg(test)]
mod readings;
#[cfg(test)]
mod scales;
