//! What is done at a belfry.
use super::chime::Chime;

/// What is done at a belfry, and what is to come of it.
#[derive(Drop)]
pub enum Step {
    /// Rows are played with its bells.
    Plays(&'static [Chime]),
    /// A pool of two workers is started that serves the bells.
    OpensPool,
    /// The first bells, who are so many, tell each other when to ring, and ring. The last of them do so 50 milliseconds after
    /// they were told.
    RingInTurn(usize),
    /// The pool is closed. Its ticker has made so many ticks, and no token is left.
    ClosesPool(u64),
    /// The pool is let go, while its ticker's thread sleeps. That this ends within some seconds is tested.
    LetsPoolGo,
    /// The thread of the ticker is started. Its tokens nobody serves: a shelf refuses so many, and takes those that follow.
    StartsThread(u64),
    /// The thread ends. It has made so many ticks, from the least to the greatest, and leaves the first token of the bell of
    /// this place, where one is given, and else none.
    EndsThread((u64, u64), Option<usize>),
}
