//! A description that machines are started of.

use crate::texts::Texts;
use sha2::{Digest, Sha256};
use st_chart::{Chart, Interpreter};
use std::alloc::{AllocError, Global};

/// A description that machines are started of.
#[derive(Drop)]
pub(crate) struct Book {
    pub(crate) chart: Chart,
    /// How many symbols it has itself; behind them come those that messages brought.
    pub(crate) own_symbols: usize,
    /// The names of its states.
    pub(crate) states: Texts,
    /// The SHA-256 of its bytes, in hex.
    pub(crate) digest: String,
}

impl Book {
    /// The description that was read from these bytes. It may find no memory.
    pub(crate) fn new(alloc: Global, text: &[u8], chart: Chart) -> Result<Book, AllocError> {
        let digest = hex::encode(alloc, Sha256::digest(text).as_slice())?;
        let states = Texts::copied(alloc, &chart.names.states)?;
        let own_symbols = chart.names.symbols.len();
        Ok(Book {
            chart,
            own_symbols,
            states,
            digest,
        })
    }

    /// The callback module of a machine of it. It may find no memory.
    pub(crate) fn interpreter(&self) -> Result<Interpreter, AllocError> {
        let table = self.chart.table.clone()?;
        Ok(Interpreter { table })
    }

    /// The number of a symbol that it has itself.
    pub(crate) fn symbol(&self, name: &str) -> Option<u32> {
        let number = self.chart.names.symbols.find(name)?;
        if (number as usize) < self.own_symbols {
            Some(number)
        } else {
            None
        }
    }
}
