//! A reader or a writer of the standard library, with a count of its failures.
ghost use Rattle.std.specs.Prelude.{◌≡◌, ◌<◌};

use crate::failed::Failed;
use crate::failures::Failures;
use crate::sink::Sink;
use crate::source::Source;
use std::io::{Read, Write};
use std::sync::ledger::{Blank, Ledger};

/// A reader or a writer, with a count of its failures.
#[derive(Drop)]
pub struct Counted<T, L: Ledger> {
    inner: T,
    failures: Failures<L>,
}

impl<T, L: Ledger> Counted<T, L> {
    /// Wraps a reader or a writer. The blank opens the ledger that counts its failures.
    pub fn new(inner: T, blank: Blank) -> Self
        requires name { blank.name ≡ L.name }
        requires parts { blank.parts ≡ L.parts }
        requires some { 0 < blank.parts }
        ensures inner { result.inner ≡ inner }
        ensures failures { result.failures ≡ 0 }
    {
        Counted {
            inner,
            failures: Failures::new(blank),
        }
    }

    /// What was wrapped.
    pub fn into_inner(self) -> T
        ensures inner { result ≡ self.inner }
    {
        let Counted { inner, failures: _ } = self;
        inner
    }
}

impl<R: Read, L: Ledger> Source for Counted<R, L> {
    ghost left = { λ r. R.remaining r.inner };

    ghost failures = { λ r. r.failures };

    fn read(&mut self, buf: &mut [u8]) -> Result<usize, Failed> {
        match self.inner.read(buf) {
            Ok(count) => Ok(count),
            Err(_) => {
                self.failures.count();
                Err(Failed)
            }
        }
    }
}

impl<W: Write, L: Ledger> Sink for Counted<W, L> {
    ghost held = { λ w. W.contents w.inner };

    ghost failures = { λ w. w.failures };

    fn write(&mut self, buf: &[u8]) -> Result<usize, Failed> {
        match self.inner.write(buf) {
            Ok(count) if 0 < count => Ok(count),
            _ => {
                self.failures.count();
                Err(Failed)
            }
        }
    }
}
