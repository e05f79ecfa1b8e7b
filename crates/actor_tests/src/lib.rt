//! The tests of actor: a bell that a thread owns rings, is told its wishes by another, and ends.
#![tactic(auto)]

#[cfg(test)]
mod tests;
mod tone;
mod wish;

pub use tone::Tone;
pub use wish::Wish;
