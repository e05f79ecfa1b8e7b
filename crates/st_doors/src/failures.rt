//! A count of failures that takes no bytes and has no limit.
ghost use Rattle.std.specs.Prelude.{◌≡◌, ◌+◌, ◌<◌};

use std::marker::Model;
use std::sync::ledger::{Blank, Book, Ledger, Share};

/// How many reads or writes failed. It takes no bytes, so no contract has to bound it.
#[derive(Drop)]
pub struct Failures<L: Ledger> {
    book: Book<L>,
    share: Share<L>,
}

impl<L: Ledger> Model for Failures<L> {
    ghost use Rattle.std.specs.Prelude.{ℕ, ◌<◌};

    ghost Value = { ℕ };

    ghost view = { λ f. f.book.total };

    ghost invariant = { λ f. 0 < f.share.parts };
}

impl<L: Ledger> Failures<L> {
    /// No failures yet, counted in the ledger that the blank opens.
    pub fn new(blank: Blank) -> Self
        requires name { blank.name ≡ L.name }
        requires parts { blank.parts ≡ L.parts }
        requires some { 0 < blank.parts }
        ensures { result ≡ 0 }
    {
        let (book, share) = blank.open();
        Failures { book, share }
    }

    /// Counts one failure more.
    pub fn count(&mut self)
        ensures counted { self.new ≡ self.old + 1 }
    {
        self.book.add(&mut self.share, 1);
    }
}
