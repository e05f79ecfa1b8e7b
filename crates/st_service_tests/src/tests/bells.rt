//! Bells as a test sees them.
use super::bell::Order;
use st_core::Time;
use st_hall::{MachineId, Refusal, Started, Token};
use st_lock::{Journal, Next};
use std::process::Abort;

/// The bells of a hall with a ticker: what they are told, and what is seen of them. What is done with any bells is proved with
/// no contract of the hall at hand, which makes these proofs short.
pub trait Bells: Drop {
    /// Starts a bell that is to ring after two times.
    fn try_start(&self, times: &(Time, Time)) -> Result<Started, Refusal>;

    /// The ticker watches a bell.
    fn try_watch(&self, id: MachineId) -> Result<(), Refusal>;

    /// Posts an order through a port of its own, and answers the token that was issued, if one was.
    fn post(&self, rt: &impl Abort, id: MachineId, order: Order) -> Option<Token>;

    /// Serves a bell once. No ticker is told of it.
    fn turn(&self, rt: &impl Abort, id: MachineId, token: Token) -> Next;

    /// Stops a bell for a reason, and removes it: what came of both.
    fn remove(
        &self,
        rt: &impl Abort,
        id: MachineId,
        reason: u32,
    ) -> (Result<u32, Refusal>, Result<(), Refusal>);

    /// How often a bell rang, and whether it has something to do.
    fn see(&self, rt: &impl Abort, id: MachineId) -> (u32, bool);

    /// A bell's journal.
    fn journal(&self, rt: &impl Abort, id: MachineId) -> Journal<u32, Order>;
}
