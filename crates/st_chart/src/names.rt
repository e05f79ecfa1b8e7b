//! Names, by number.

use indexmap::IndexMap;
use std::alloc::{AllocError, Global};

/// Names, each once, by their numbers from 0 on, in the order in which they came.
#[derive(Drop)]
pub struct Names {
    places: IndexMap<String, ()>,
}

impl Names {
    /// No names. It takes no memory.
    pub fn new(alloc: Global) -> Names {
        Names {
            places: IndexMap::new(alloc),
        }
    }

    /// How many names there are.
    pub fn len(&self) -> usize {
        self.places.len()
    }

    /// Whether there is no name.
    pub fn is_empty(&self) -> bool {
        self.places.len() == 0
    }

    /// The number of a name, or `None` where it is not there.
    pub fn find(&self, name: &str) -> Option<u32> {
        let place = self.places.get_index_of(name)?;
        u32::try_from(place).ok()
    }

    /// The name of a number; `?` where there are not so many.
    pub fn name(&self, number: u32) -> &str {
        match self.places.get_index(number as usize) {
            Some((name, _)) => name.as_str(),
            None => "?",
        }
    }

    /// The number of a name, which comes in as the last where it is not there yet. It may find no memory; then nothing has
    /// changed.
    pub fn number(&mut self, alloc: Global, name: &str) -> Result<u32, AllocError> {
        if let Some(number) = self.find(name) {
            return Ok(number);
        }
        let number = u32::try_from(self.places.len()).or(Err(AllocError))?;
        let name = String::from_str(alloc, name)?;
        self.places.insert(name, ())?;
        Ok(number)
    }
}
