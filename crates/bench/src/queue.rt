//! What a line of the bench does with a run queue, whichever it is.
use st_core::{MachineId, Refusal};
use st_runq::{Lane, PutRefused, Token};

/// The machine of each token.
const ID: MachineId = MachineId { slot: 0, serial: 1 };

/// A run queue that is measured: one end puts tokens, and one takes them.
pub trait Queue {
    /// Puts a token behind the others. Where there is no memory for it, it comes back.
    fn put(&mut self, token: Token) -> Result<(), PutRefused>;

    /// Takes the first token, if there is one.
    fn take(&mut self) -> Option<Token>;
}

/// A local run queue: its worker puts and takes.
impl Queue for Lane {
    fn put(&mut self, token: Token) -> Result<(), PutRefused> {
        self.put_local(token)
    }

    fn take(&mut self) -> Option<Token> {
        self.take_local()
    }
}

/// The token of a wake number.
fn token(wake: u64) -> Token {
    Token { machine: ID, wake }
}

/// Puts the token of a wake number.
fn put<Q: Queue>(queue: &mut Q, wake: u64) -> Result<(), Refusal> {
    match queue.put(token(wake)) {
        Ok(()) => Ok(()),
        Err(_) => Err(Refusal::NoMemory),
    }
}

/// Takes a token, and answers 1 where it is the one of this wake number.
fn take<Q: Queue>(queue: &mut Q, wake: u64) -> u64 {
    if queue.take() == Some(token(wake)) {
        1
    } else {
        0
    }
}

/// Puts the tokens of the wake numbers from 0 up to this one.
fn put_all<Q: Queue>(queue: &mut Q, end: u32) -> Result<(), Refusal> {
    for wake in 0..end {
        put(queue, wake as u64)?;
    }
    Ok(())
}

/// Puts a token and takes one, so many times, while so many wait, and counts those that come in order.
fn put_and_take_each<Q: Queue>(queue: &mut Q, count: u32, waiting: u32) -> Result<u64, Refusal> {
    let mut in_order = 0u64;
    for wake in 0..count {
        put(queue, waiting as u64 + wake as u64)?;
        in_order = in_order.saturating_add(take(queue, wake as u64));
    }
    Ok(in_order)
}

/// Takes so many tokens, and counts those that come in order, from this wake number on.
fn take_all<Q: Queue>(queue: &mut Q, first: u32, count: u32) -> u64 {
    let mut in_order = 0u64;
    for place in 0..count {
        in_order = in_order.saturating_add(take(queue, first as u64 + place as u64));
    }
    in_order
}

/// Puts a token into an empty run queue and takes one, so many times, while so many wait, and then takes those. Answers
/// how many came in the order in which they were put, and 0 where there is one too many.
pub fn pass<Q: Queue>(queue: &mut Q, count: u32, waiting: u32) -> Result<u64, Refusal> {
    put_all(queue, waiting)?;
    let passed = put_and_take_each(queue, count, waiting)?;
    let last = take_all(queue, count, waiting);
    match queue.take() {
        Some(_) => Ok(0),
        None => Ok(passed.saturating_add(last)),
    }
}
