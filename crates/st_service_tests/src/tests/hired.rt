//! A clerk as a test sees him.
use super::said::Said;
use super::seen::Seen;
use super::way::Way;
use crate::{Order, Window};
use st_lock::Look;
use st_service::Refusal;

/// A clerk who was hired: what he is told, and what is seen of him. What is done at any hatch is proved with no contract of the
/// hatch at hand, which makes these proofs short.
pub trait Hired: Drop {
    /// Tells him an order by a message, or else by a cast.
    fn tell(&mut self, way: Way, order: Order) -> Said;

    /// Tells him an order, and waits for what he replies.
    fn call(&mut self, order: Order) -> Said;

    /// Tells him an order. What he replies may be asked for.
    fn request(&mut self, order: Order) -> Said;

    /// Waits for a reply that was not collected.
    fn collect(&mut self) -> Said;

    /// What is seen of him that takes no memory.
    fn see(&self) -> Seen;

    /// What is seen of him, or that there is no memory for it.
    fn try_look(&mut self) -> Result<Look<Window, u32>, Refusal>;
}
