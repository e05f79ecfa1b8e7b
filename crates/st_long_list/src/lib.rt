//! A list into which an element is put, and from which one is taken, at any place, and that takes memory in one call
//! alone.
#![tactic(auto)]

mod long_list;
mod tiers;

pub use long_list::LongList;
