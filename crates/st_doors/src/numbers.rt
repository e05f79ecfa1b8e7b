//! The numbers of names.
ghost use Rattle.std.specs.Prelude.{◌≡◌, ℕ, List, Some, None, OnOk, OnErr, bytes_eq, string_bytes, if◌then◌else◌};
ghost use Rattle.std.specs.BTreeMap.{get_by_text};

use std::alloc::{AllocError, Global};
use std::collections::BTreeMap;

/// The numbers of names, found by the order of the names: whoever picks the names cannot make it slow.
#[derive(Drop)]
pub(crate) struct Numbers {
    numbers: BTreeMap<String, u64>,
}

impl Numbers {
    /// No name has a number.
    pub(crate) fn new(alloc: Global) -> Numbers
        ensures { (name : List ℕ) → get_by_text result.numbers name ≡ None }
    {
        Numbers {
            numbers: BTreeMap::new(alloc),
        }
    }

    /// The number of a name.
    pub(crate) fn get(&self, name: &str) -> Option<u64>
        ensures { result ≡ get_by_text self.now.numbers name.now }
    {
        self.numbers.get(name).copied()
    }

    /// Gives a name a number.
    pub(crate) fn insert(&mut self, name: String, number: u64) -> Result<(), AllocError>
        ensures inserted { OnOk result ((other : List ℕ) → get_by_text self.new.numbers other ≡ (if bytes_eq (string_bytes name) other then Some number else get_by_text self.old.numbers other)) }

        ensures unchanged { OnErr result ((other : List ℕ) → get_by_text self.new.numbers other ≡ get_by_text self.old.numbers other) }
    {
        self.numbers.insert(name, number)?;
        Ok(())
    }

    /// Takes a name's number away, and answers it.
    pub(crate) fn remove(&mut self, name: &str) -> Option<u64>
        ensures number { result ≡ get_by_text self.old.numbers name.now }
        ensures removed { (other : List ℕ) → get_by_text self.new.numbers other ≡ (if bytes_eq name.now other then None else get_by_text self.old.numbers other) }
    {
        self.numbers.remove(name)
    }
}
