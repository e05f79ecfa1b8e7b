//! The faults that were found.

use crate::Fault;
use crate::lists::add_to;
use crate::places::Places;
use st_events::PlainList;
use std::alloc::{AllocError, Global};

/// How many faults are told.
const MOST_FAULTS: usize = 20;

/// A fault, and at which byte it stands.
#[derive(Drop)]
struct Noted {
    at: usize,
    text: String,
}

/// The first faults that were found, of each place one.
#[derive(Drop)]
pub(crate) struct Faults {
    noted: Vec<Noted>,
}

impl Faults {
    pub(crate) fn new(alloc: Global) -> Faults {
        Faults {
            noted: Vec::new(alloc),
        }
    }

    pub(crate) fn is_empty(&self) -> bool {
        self.noted.is_empty()
    }

    /// Whether no further fault is told.
    pub(crate) fn is_full(&self) -> bool {
        self.noted.len() >= MOST_FAULTS
    }

    /// Whether a fault at a place would be told.
    pub(crate) fn wants(&self, at: usize) -> bool {
        for noted in &self.noted {
            if noted.at == at {
                return false;
            }
        }
        !self.is_full()
    }

    pub(crate) fn note(&mut self, at: usize, text: String) -> Result<(), AllocError> {
        self.noted.push(Noted { at, text })?;
        Ok(())
    }

    /// The faults in the order of their places.
    pub(crate) fn told(
        self,
        alloc: Global,
        places: &Places<'_>,
    ) -> Result<PlainList<Fault>, AllocError> {
        let Faults { mut noted } = self;
        noted.sort_unstable_by_key(|noted| noted.at);
        let mut faults = PlainList::new(alloc);
        for Noted { at, text } in noted {
            add_to(&mut faults, fault_at(places, at, text))?;
        }
        Ok(faults)
    }
}

/// A fault at a byte.
fn fault_at(places: &Places<'_>, at: usize, text: String) -> Fault {
    let spot = places.spot(at);
    Fault {
        line: spot.line,
        column: spot.column,
        text,
    }
}
