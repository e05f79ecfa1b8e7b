//! A courier as a test sees him.
use st_lock::Look;
use st_service::{Refusal, Unposted};

/// A courier who was hired: what he is handed, and what has come to him. What is done at any desk is proved with no contract of
/// the desk at hand, which makes these proofs short.
pub trait Carrier: Drop {
    /// Casts a number to him.
    fn cast(&mut self, number: u32) -> Result<u64, Unposted<u32>>;

    /// What is seen of him, or that there is no memory for it.
    fn try_look(&mut self) -> Result<Look<u32, u64>, Refusal>;

    /// How many messages came to him.
    fn came(&self) -> u32;
}
