//! Short lists as values that can be copied and compared.
use std::alloc::AllocError;

/// How many elements a list has, and the first three.
#[derive(Copy, Debug, PartialEq, Eq)]
pub struct Few<T> {
    pub count: usize,
    pub first: Option<T>,
    pub second: Option<T>,
    pub third: Option<T>,
}

impl<T: Copy> Clone for Few<T> {
    fn clone(&self) -> Result<Few<T>, AllocError> {
        Ok(*self)
    }
}

impl<T: Copy> Few<T> {
    /// These elements.
    pub fn of(elements: &[T]) -> Few<T> {
        Few {
            count: elements.len(),
            first: elements.first().copied(),
            second: elements.get(1).copied(),
            third: elements.get(2).copied(),
        }
    }

    /// No element.
    pub fn none() -> Few<T> {
        Few {
            count: 0,
            first: None,
            second: None,
            third: None,
        }
    }

    /// Says whether there are no elements but those that are shown.
    pub fn is_whole(&self) -> bool {
        self.count <= 3
    }

    /// One more element behind these.
    pub fn and(self, element: T) -> Few<T> {
        if self.first.is_none() {
            Few {
                count: 1,
                first: Some(element),
                ..self
            }
        } else if self.second.is_none() {
            Few {
                count: 2,
                second: Some(element),
                ..self
            }
        } else if self.third.is_none() {
            Few {
                count: 3,
                third: Some(element),
                ..self
            }
        } else {
            Few {
                count: self.count.saturating_add(1),
                ..self
            }
        }
    }
}
