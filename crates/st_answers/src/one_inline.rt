//! Lists that mostly have one element.
ghost use Rattle.std.specs.Cmp.Lexicographic.{pointwise, lists_per, lists_equiv};
ghost use Rattle.std.specs.Prelude.{◌≡◌, [], ◌∷◌, ◌++◌, length, slice_get, option_copied, IfOk, OnOk, OnErr};

use std::alloc::{AllocError, Global};
use std::fmt::{self, Debug, Formatter, Write};
use std::marker::Model;

/// A list whose first element lies in the value itself. Contracts see its elements alone.
///
/// Ours: docs/DECISIONS.md, Lists in values that definitions compare.
#[derive(Drop)]
pub struct OneInline<T> {
    first: Option<T>,
    // None where there is no first one.
    others: Vec<T>,
}

impl<T> Model for OneInline<T> {
    ghost use Rattle.std.specs.Prelude.{◌≡◌, ◌++◌, [], None, List};
    ghost use Rattle.std.specs.Option.{option_to_list};

    ghost Value = { List T };

    ghost view = { λ list. option_to_list list.first ++ list.others.items };

    ghost invariant = { λ list. list.first ≡ None → list.others.items ≡ [] };
}

impl<T> OneInline<T> {
    /// No element. It takes no memory.
    pub fn new(alloc: Global) -> OneInline<T>
        ensures { result ≡ [] }
    {
        OneInline {
            first: None,
            others: Vec::new(alloc),
        }
    }

    /// One element. It takes no memory.
    pub fn of(alloc: Global, element: T) -> OneInline<T>
        ensures { result ≡ element ∷ [] }
    {
        OneInline {
            first: Some(element),
            others: Vec::new(alloc),
        }
    }

    /// How many elements there are.
    pub fn len(&self) -> usize
        ensures { result ≡ length self.now }
    {
        match self.first {
            None => 0,
            Some(_) => 1 + self.others.len(),
        }
    }

    /// The element at an index, counted from 0, or `None` where there are not so many.
    pub fn get(&self, index: usize) -> Option<&T>
        ensures { option_copied result ≡ slice_get self.now index }
    {
        if index == 0 {
            self.first.as_ref()
        } else {
            self.others.as_slice().get(index - 1)
        }
    }
}

impl<T: Drop> OneInline<T> {
    /// Adds an element at the end. Where there was none this takes no memory. Where memory is wanted and there is none,
    /// the list stays.
    pub fn push(&mut self, element: T) -> Result<(), AllocError>
        ensures pushed { OnOk result (self.new ≡ self.old ++ element ∷ []) }

        ensures unchanged { OnErr result (self.new ≡ self.old) }
    {
        if self.first.is_none() {
            self.first = Some(element);
            return Ok(());
        }
        self.others.reserve_exact(1)?;
        self.others.push_reserved(element);
        Ok(())
    }
}

impl<T: Copy> OneInline<T> {
    /// The same elements, as a value of their own. Where memory is wanted and there is none, nothing is copied.
    pub fn copy(&self, alloc: Global) -> Result<OneInline<T>, AllocError>
        ensures { IfOk result (λ copy. copy ≡ self.now) }
    {
        let others = Vec::from_slice(alloc, self.others.as_slice())?;
        Ok(OneInline {
            first: self.first,
            others,
        })
    }
}

/// Lists are equal where their elements are, one by one.
impl<T: PartialEq> PartialEq for OneInline<T> {
    ghost eq = { pointwise T.eq };

    ghost laws = { lists_per T.laws };

    fn eq(&self, other: &OneInline<T>) -> bool {
        self.first == other.first && self.others == other.others
    }
}

impl<T: Eq> Eq for OneInline<T> {
    ghost laws = { lists_equiv T.Eq.laws };
}

/// It is shown as its elements are, as a list.
impl<T: Debug> Debug for OneInline<T> {
    fn fmt<W: Write>(&self, f: &mut Formatter<W>) -> fmt::Result {
        let mut list = f.debug_list();
        list.entries(self.first.iter());
        list.entries(self.others.iter()).finish()
    }
}
