//! What can be read that takes no memory.
use super::asked::{Answered, Asked};
use super::inside::Inside;
use super::reading::Reading;

/// What can be read of a cell or of a shared machine that takes no memory, but a journal and its base.
#[derive(Clone, Copy, PartialEq)]
pub struct Seen {
    pub reading: Reading,
    pub ports: usize,
    pub removable: bool,
    /// What a shared machine does not tell.
    pub inside: Option<Inside>,
}

impl Seen {
    /// Says whether so many commands were told in all.
    pub fn counts(&self, number: u64) -> bool {
        match self.inside {
            Some(inside) => inside.count == number,
            None => false,
        }
    }

    /// The answer to what is asked, where it can be read here.
    pub fn answer(&self, asked: Asked) -> Answered {
        match asked {
            Asked::Ports => Answered::Ports(self.ports),
            Asked::Removable => Answered::Removable(self.removable),
            Asked::Read => Answered::Read(self.reading),
            _ => match self.inside {
                Some(inside) => inside.answer(asked),
                None => Answered::NotOpen,
            },
        }
    }
}
