//! What is done at an office of couriers.
use super::left::Left;
use super::parcel::Parcel;

/// What is done at an office of couriers, and what is to come of it. Couriers are told apart by their places, in the order in
/// which they were hired.
#[derive(Drop)]
pub enum Errand {
    /// So many couriers are hired: the first sends to the courier of this place, and each other to the one behind that of the
    /// one before. Without a place, each sends to nobody.
    Hires(usize, Option<usize>),
    /// Rows are played at the desks.
    Plays(&'static [Parcel]),
    /// The service is shut down, and leaves this.
    ShutsDown(Left),
}
