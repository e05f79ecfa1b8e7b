//! What the words that all crates share and the parts around a machine answer, with memory and while an allocation is
//! refused.

mod actions;
mod claim_lock;
mod collection;
mod directory;
mod events;
mod host;
mod json;
mod runq;
mod sequence;
mod trace;
mod words;
