//! Vectors that contracts see as lists.
ghost use Rattle.std.specs.Cmp.Lexicographic.{pointwise, lists_per, lists_equiv};
ghost use Rattle.std.specs.Prelude.{◌≡◌, [], ◌∷◌, ◌++◌, length, slice_get, option_copied, IfOk, OnOk, OnErr, IfErr};

use std::alloc::{AllocError, AllocFailed, Global};
use std::fmt::{self, Debug, Formatter, Write};
use std::marker::Model;

/// A vector of which contracts see the elements alone, and no capacity.
///
/// Ours: docs/DECISIONS.md, Lists in values that definitions compare.
#[derive(Drop)]
pub struct PlainList<T> {
    elements: Vec<T>,
}

impl<T> Model for PlainList<T> {
    ghost use Rattle.std.specs.Prelude.{List};

    ghost Value = { List T };

    ghost view = { λ list. list.elements.items };
}

impl<T> PlainList<T> {
    /// No element. It takes no memory.
    pub fn new(alloc: Global) -> PlainList<T>
        ensures { result ≡ [] }
    {
        PlainList {
            elements: Vec::new(alloc),
        }
    }

    /// The elements in order.
    pub fn as_slice(&self) -> &[T]
        ensures { result.now ≡ self.now }
    {
        self.elements.as_slice()
    }

    /// How many elements there are.
    pub fn len(&self) -> usize
        ensures { result ≡ length self.now }
    {
        self.elements.len()
    }

    /// The element at an index, counted from 0, or `None` where there are not so many.
    pub fn get(&self, index: usize) -> Option<&T>
        ensures { option_copied result ≡ slice_get self.now index }
    {
        self.elements.get(index)
    }

    /// Adds an element at the end. Where memory is wanted and there is none, the list stays and the element
    /// comes back.
    pub fn push(&mut self, element: T) -> Result<(), AllocFailed<T>>
        ensures pushed { OnOk result (self.new ≡ self.old ++ element ∷ []) }

        ensures unchanged { OnErr result (self.new ≡ self.old) }
        ensures value_returned { IfErr result (λ failed. failed.value ≡ element) }
    {
        self.elements.push(element)
    }

    /// The vector itself, which takes no memory.
    pub fn into_vec(self) -> Vec<T>
        ensures { result.items ≡ self }
    {
        let PlainList { elements } = self;
        elements
    }
}

impl<T: Copy> PlainList<T> {
    /// A list of copies of these elements. It may find no memory.
    pub fn copied(alloc: Global, elements: &[T]) -> Result<PlainList<T>, AllocError>
        ensures { IfOk result (λ copy. copy ≡ elements.now) }
    {
        Ok(PlainList {
            elements: Vec::from_slice(alloc, elements)?,
        })
    }
}

impl<T> From<Vec<T>> for PlainList<T> {
    ghost from_gives = { λ elements list. list ≡ elements.items };

    fn from(elements: Vec<T>) -> PlainList<T> {
        PlainList { elements }
    }
}

/// Lists are equal where their elements are, one by one.
impl<T: PartialEq> PartialEq for PlainList<T> {
    ghost eq = { pointwise T.eq };

    ghost laws = { lists_per T.laws };

    fn eq(&self, other: &PlainList<T>) -> bool {
        self.as_slice() == other.as_slice()
    }
}

impl<T: Eq> Eq for PlainList<T> {
    ghost laws = { lists_equiv T.Eq.laws };
}

/// It is shown as its elements are, as a list.
impl<T: Debug> Debug for PlainList<T> {
    fn fmt<W: Write>(&self, f: &mut Formatter<W>) -> fmt::Result {
        f.debug_list().entries(self.elements.iter()).finish()
    }
}
