//! A list of digits, as a code or the buttons that were pressed.
ghost use Rattle.std.specs.Prelude.{◌≡◌, ◌<◌, ◌^◌, ◌++◌, ◌∷◌, [], IfOk, OnOk, OnErr, length};

use std::alloc::{AllocError, Global};
use std::marker::Model;

/// How many digits a list may have.
const MOST: usize = u32::MAX as usize;

/// A list of fewer than 2^32 digits. Contracts see it as its digits, the first one first.
#[derive(Debug, Drop)]
pub struct Digits {
    digits: Vec<u8>,
}

impl Model for Digits {
    ghost use Rattle.std.specs.Prelude.{List, ℕ, ◌<◌, ◌^◌, length};

    ghost Value = { List ℕ };

    ghost view = { λ d. d.digits.items };

    ghost invariant = { λ d. length d.digits.items < 2 ^ 32 };
}

impl Digits {
    /// No digits, which take no memory.
    pub fn new(alloc: Global) -> Digits
        ensures { result ≡ [] }
    {
        Digits {
            digits: Vec::new(alloc),
        }
    }

    /// The digits of a slice. For 2^32 digits or more there is no memory.
    pub fn copied(alloc: Global, digits: &[u8]) -> Result<Digits, AllocError>
        ensures { IfOk result (λ copy. copy ≡ digits.now) }
    {
        if MOST < digits.len() {
            return Err(AllocError);
        }
        Ok(Digits {
            digits: Vec::from_slice(alloc, digits)?,
        })
    }

    /// The digits as a slice.
    pub fn as_slice(&self) -> &[u8]
        ensures { result.now ≡ self.now }
    {
        self.digits.as_slice()
    }

    /// How many digits there are.
    pub fn len(&self) -> usize
        ensures length { result ≡ length self.now }
        ensures within { result < 2 ^ 32 }
    {
        self.digits.len()
    }

    /// Puts one digit more at the end. A list of 2^32 - 1 digits has no memory for one more, and
    /// stays as any list does where memory is wanted and there is none.
    pub fn push(&mut self, digit: u8) -> Result<(), AllocError>
        ensures pushed { OnOk result (self.new ≡ self.old ++ digit ∷ []) }

        ensures unchanged { OnErr result (self.new ≡ self.old) }
    {
        if self.digits.len() >= MOST {
            return Err(AllocError);
        }
        self.digits.push(digit)?;
        Ok(())
    }
}
