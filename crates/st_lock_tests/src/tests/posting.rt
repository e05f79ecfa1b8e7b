//! A port of a thread as a test sees it: what is posted through it, and what is seen.
use super::plain::Plain;
use st_lock::{Entry, Port, Refusal};
use std::sync::Wait;

/// What is seen through a port: how often it has posted, how many entries are its own and how many there are, how many
/// events wait, how many numbers are its own, and whether these rise.
#[derive(Clone, Copy)]
pub struct Glimpse {
    pub count: u64,
    pub mine: u64,
    pub entries: u64,
    pub waiting: usize,
    pub numbers: usize,
    pub rise: bool,
}

/// A port. What is done with any port is proved with no contract of it at hand, which makes these proofs short.
pub trait Posting: Drop {
    /// Posts an event, and answers its number.
    fn post_one(&mut self, threads: &impl Wait, entry: Entry, content: u32) -> Option<u64>;

    /// What is seen through it, or that there is no memory for that.
    fn glance(&mut self, threads: &impl Wait) -> Result<Glimpse, Refusal>;
}

/// Says whether numbers rise.
fn rise(numbers: &[u64]) -> bool {
    let mut last = 0;
    for number in numbers {
        if *number <= last {
            return false;
        }
        last = *number;
    }
    true
}

impl Posting for Port<Plain> {
    fn post_one(&mut self, threads: &impl Wait, entry: Entry, content: u32) -> Option<u64> {
        match self.post(threads, entry, content) {
            Ok(posted) => Some(posted.number),
            Err(_) => None,
        }
    }

    fn glance(&mut self, threads: &impl Wait) -> Result<Glimpse, Refusal> {
        let look = self.look(threads)?;
        let glance = Glimpse {
            count: self.count(),
            mine: look.mine,
            entries: look.entries,
            waiting: look.waiting,
            numbers: look.numbers.len(),
            rise: rise(look.numbers.as_slice()),
        };
        drop(look);
        Ok(glance)
    }
}
