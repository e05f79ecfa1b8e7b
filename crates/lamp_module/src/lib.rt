//! The module of a lamp, to be copied: another crate runs it.
#![tactic(auto)]

mod lamp;

pub use lamp::{Bulb, Lamp, Light, Press};
