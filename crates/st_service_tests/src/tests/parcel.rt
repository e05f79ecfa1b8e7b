//! What is done at the desks of couriers.

/// What is done at the desks of couriers, and what is to come of it. Couriers are told apart by their places, in the order in
/// which they were hired.
#[derive(Drop)]
pub enum Parcel {
    /// Numbers, from the first to the last, are cast one after another: each to the couriers from a place on, up to another one.
    Casts((u32, u32), (usize, usize)),
    /// So many messages at least come to the first couriers, who are so many. That they come within some seconds is tested.
    Awaits(u64, usize),
    /// So many messages have come to the first couriers, who are so many, and no more.
    HaveCome(u64, usize),
    /// To each of the first couriers, who are so many, the numbers from 1 to this one came in order, each once.
    AreInOrder(u32, usize),
}
