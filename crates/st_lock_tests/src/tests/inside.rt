//! What only a cell shows of its machine.
use super::asked::{Answered, Asked};
use st_events::Token;

/// What can be read of a cell, and not of a machine that threads share.
#[derive(Clone, Copy, PartialEq)]
pub struct Inside {
    pub held: u32,
    /// The number of the first message.
    pub message: Option<u64>,
    pub latest: u64,
    pub token: Option<Token>,
    pub count: u64,
}

impl Inside {
    /// The answer to what is asked, where it can be read here.
    pub fn answer(&self, asked: Asked) -> Answered {
        match asked {
            Asked::Token => Answered::Token(self.token),
            Asked::Count => Answered::Count(self.count),
            _ => Answered::NotOpen,
        }
    }
}
