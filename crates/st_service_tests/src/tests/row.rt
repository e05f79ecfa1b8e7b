//! What is done at a clerk's hatch.
use super::said::Said;
use super::way::Way;
use crate::Order;

/// What is done at a clerk's hatch, and what is to come of it.
#[derive(Drop)]
pub enum Row {
    /// He is told an order by a cast, and takes it.
    Tells(Order),
    /// He is asked for the sum, and replies with this.
    Asks(u32),
    /// He is told an order in a way, and says this.
    Says(Way, Order, Said),
    /// So often he was told something here.
    WasTold(u64),
    /// He has ended, for this reason and with this last word.
    HasEnded(u32, u32),
    /// He is asked until he replies with this sum. That he does within some seconds is tested.
    AwaitsSum(u32),
    /// He was told so often, and his journal comes to have so many posts, from the fewest to the most: who served him cuts it
    /// behind the turns.
    AwaitsKept(u64, usize, usize),
}
