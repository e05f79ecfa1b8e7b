//! A lock whose holders claim something of the value under it: what a holder claims fits the value each time that the
//! holder takes it, whatever others did in between.
//! It knows nothing of machines, nor of what lies under it.
#![tactic(auto)]

mod claim_lock;
mod hold;
mod holder;
mod steps;
mod taken;
mod tie;

pub use claim_lock::ClaimLock;
pub use holder::Holder;
pub use taken::Taken;
pub use tie::{Claimed, Tie};
