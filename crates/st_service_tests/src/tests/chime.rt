//! What is done with bells.
use super::bell::Order;
use st_core::Time;

/// What is done with bells, and what is to come of it. Bells are told apart by their places, in the order in which they were
/// started.
#[derive(Drop)]
pub enum Chime {
    /// The next bell, of this place, is started. It is to ring after two times, and is watched.
    Starts(usize, (Time, Time)),
    /// So many bells are started as the first ones. Each is to ring after this time, and is watched.
    StartsEach(usize, Time),
    /// A bell is served once with an order, and rests then. The ticker is not told of it.
    Serves(usize, Order),
    /// A bell is stopped, ends with its last word, and is removed.
    Removes(usize),
    /// A bell that is not there any more is forgotten.
    Forgets(usize),
    /// A bell is waited for until it rang so often. That it does within some seconds is tested.
    AwaitsRings(usize, u32),
    /// A bell is waited for until so many of its time-outs came, each of them due by the moment that a tick told.
    AwaitsComing(usize, u64),
    /// So many time-outs of a bell came, each of them due by the moment that a tick told.
    HaveCome(usize, u64),
    /// The first bells, who are so many, have rung as often as they were told to, and as many time-outs of each came by a tick.
    HaveRung(usize),
    /// So many milliseconds pass.
    Sleeps(u64),
    /// So many milliseconds have passed since the first of these rows was begun.
    IsNotEarly(u128),
    /// The token of a bell, the first that it was issued, is taken from the shelf, once it is there.
    TakesToken(usize),
    /// The shelf is to refuse so many tokens more.
    IsToRefuse(u64),
    /// The shelf is waited for until it has refused a token twice, at least, of as many as can be counted.
    AwaitsRefusals,
}
