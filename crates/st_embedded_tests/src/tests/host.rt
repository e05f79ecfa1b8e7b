//! What a test runs on.
ghost use Rattle.std.specs.Prelude.{◌≡◌, IsTrue};

use std::alloc::Global;
use std::cell::Cell;
use std::fmt::{Debug, Display};
use std::io::Print;
use std::process::Abort;

/// What a test runs on, and how many of its calls were made again since they had found no memory.
#[derive(Drop)]
pub struct Host<R> {
    rt: R,
    retries: Cell<u32>,
}

impl<R> Host<R> {
    /// No call was made again yet.
    pub fn new(rt: R) -> Host<R> {
        Host {
            rt,
            retries: Cell::new(0),
        }
    }
}

impl<R: AllocGlobal> Host<R> {
    /// What allocates.
    pub fn alloc(&self) -> Global {
        self.rt.alloc()
    }

    /// The allocation that is refused, if one is, is one made here: the test's own find memory.
    pub fn with_memory(rt: R) -> Host<R> {
        let host = Host::new(rt);
        for _ in 0..10_000 {
            if Box::new(host.alloc(), 'x').is_err() {
                return host;
            }
        }
        host
    }
}

impl<R: Abort> Host<R> {
    /// A call found no memory, and is made again. One allocation alone is refused, so there is one such call.
    pub fn retry(&self) {
        let first = self.retries.get() == 0;
        holds(self, "one call alone is made again", first);
        self.retries.set(1);
    }
}

impl<R: Abort + AllocGlobal + Print> Host<R> {
    /// Ends a test. Where none of its allocations was refused, one of those made here may be: then no call may have
    /// been made again, and it prints a line that `tools/refuse-each` reads. It says whether it did.
    pub fn end(&self) -> bool {
        for _ in 0..10_000 {
            if Box::new(self.alloc(), 'x').is_err() {
                let none = self.retries.get() == 0;
                holds(self, "no call was made again", none);
                self.end_with_memory();
                return true;
            }
        }
        false
    }
}

impl<R: Print> Host<R> {
    /// Ends a test that began with memory: none of its own allocations was refused, and it says so.
    pub fn end_with_memory(&self) {
        let _ = println!(self.rt; "nothing was refused");
    }
}

impl<R: Abort> Abort for Host<R> {
    fn abort(&self) -> ! {
        self.rt.abort()
    }

    fn exit(&self, code: i32) -> ! {
        self.rt.exit(code)
    }

    fn panic<D: Display + Drop>(&self, message: D) -> ! {
        self.rt.panic(message)
    }
}

/// Ends the test with this word where the fact does not hold. A macro in a test's body would branch there, and each
/// branch is proved.
pub fn holds(rt: &impl Abort, word: &str, fact: bool)
    ensures { IsTrue fact }
{
    assert!(rt; fact, "{word}");
}

/// Ends the test with this word and both values where they differ.
pub fn same<T: PartialEq + Debug>(rt: &impl Abort, word: &str, found: &T, wanted: &T) {
    assert!(rt; found == wanted, "{word}: {found:?} in place of {wanted:?}");
}

/// The same for numbers.
pub fn is_number(rt: &impl Abort, word: &str, found: u64, wanted: u64) {
    same(rt, word, &found, &wanted);
}

/// The same for how many there are.
pub fn is_count(rt: &impl Abort, word: &str, found: usize, wanted: usize) {
    same(rt, word, &found, &wanted);
}

/// What a call gave. Ends the test with this word where it was refused.
pub fn got<T: Drop, E: Drop>(rt: &impl Abort, word: &str, outcome: Result<T, E>) -> T
    ensures { outcome ≡ Ok result }
{
    match outcome {
        Ok(value) => value,
        Err(_) => panic!(rt; "{word}"),
    }
}
