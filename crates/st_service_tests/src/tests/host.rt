//! What a test runs on.
ghost use Rattle.std.specs.Prelude.{◌≡◌, IsTrue};

use std::alloc::Global;
use std::cell::Cell;
use std::fmt;
use std::fmt::{Debug, Display, Formatter, Write};
use std::io::Print;
use std::process::Abort;
use std::sync::Arc;

/// What a test runs on, how many of its calls were made again since they had found no memory, and what it is at.
#[derive(Drop)]
pub struct Host<R> {
    rt: R,
    retries: Cell<u32>,
    act: Cell<usize>,
    row: Cell<usize>,
}

impl<R> Host<R> {
    /// No call was made again yet.
    pub fn new(rt: R) -> Host<R> {
        Host {
            rt,
            retries: Cell::new(0),
            act: Cell::new(0),
            row: Cell::new(0),
        }
    }

    /// The act of a place begins. Each failure tells it, counted from 1.
    pub fn begins_act(&self, place: usize) {
        self.act.set(place.saturating_add(1));
        self.row.set(0);
    }

    /// The row of a place begins within an act. Each failure tells it, counted from 1.
    pub fn begins_row(&self, place: usize) {
        self.row.set(place.saturating_add(1));
    }
}

/// What a test says as it fails: at which act, at which row of it, and why.
#[derive(Drop)]
struct Failure<D> {
    act: usize,
    row: usize,
    message: D,
}

impl<D: Display> Display for Failure<D> {
    fn fmt<W: Write>(&self, f: &mut Formatter<W>) -> fmt::Result {
        write!(f, "act {}, row {}: {}", self.act, self.row, self.message)
    }
}

impl<R: AllocGlobal> Host<R> {
    /// What allocates.
    pub fn alloc(&self) -> Global {
        self.rt.alloc()
    }

    /// The allocation that is refused, if one is, is one made here: the test's own find memory, and none of its calls may be
    /// made again.
    pub fn with_memory(rt: R) -> Host<R> {
        let host = Host::new(rt);
        host.retries.set(1);
        for _ in 0..10_000 {
            if Box::new(host.alloc(), 'x').is_err() {
                return host;
            }
        }
        host
    }
}

impl<R: Abort> Host<R> {
    /// A call found no memory, and is made again. One allocation alone is refused, so there is one such call, and none where
    /// the test began with memory.
    pub fn retry(&self) {
        let first = self.retries.get() == 0;
        holds(self, "each other call finds memory", first);
        self.retries.set(1);
    }

    /// Puts a value behind others. Where there is no memory, it is put there again.
    pub fn puts<T: Drop>(&self, values: &mut Vec<T>, value: T) {
        if let Err(refused) = values.push(value) {
            self.retry();
            got(
                self,
                "one allocation alone is refused",
                values.push(refused.value),
            );
        }
    }

    /// A value in a box. Where there is no memory, it is boxed again.
    pub fn boxed<T: Drop>(&self, alloc: Global, value: T) -> Box<T> {
        match Box::new(alloc, value) {
            Ok(boxed) => boxed,
            Err(refused) => {
                self.retry();
                got(
                    self,
                    "one allocation alone is refused",
                    Box::new(alloc, refused.value),
                )
            }
        }
    }

    /// A value with counted owners. Where there is no memory, it is made again.
    pub fn shares<T: Drop>(&self, alloc: Global, value: T) -> Arc<T, Global> {
        match Arc::new(alloc, value) {
            Ok(shared) => shared,
            Err(refused) => {
                self.retry();
                got(
                    self,
                    "one allocation alone is refused",
                    Arc::new(alloc, refused.value),
                )
            }
        }
    }
}

impl<R: Abort + AllocGlobal + Print> Host<R> {
    /// Ends a test. Where none of its allocations was refused, one of those made here may be: then no call may have
    /// been made again, and it prints a line that `tools/refuse-each` reads. It says whether it did.
    pub fn end(&self) -> bool {
        for _ in 0..10_000 {
            if Box::new(self.alloc(), 'x').is_err() {
                let none = self.retries.get() == 0;
                holds(self, "no call was made again", none);
                self.end_with_memory();
                return true;
            }
        }
        false
    }
}

impl<R: Print> Host<R> {
    /// Ends a test that began with memory: none of its own allocations was refused, and it says so.
    pub fn end_with_memory(&self) {
        let _ = println!(self.rt; "nothing was refused");
    }
}

impl<R: Abort> Abort for Host<R> {
    fn abort(&self) -> ! {
        self.rt.abort()
    }

    fn exit(&self, code: i32) -> ! {
        self.rt.exit(code)
    }

    fn panic<D: Display + Drop>(&self, message: D) -> ! {
        self.rt.panic(Failure {
            act: self.act.get(),
            row: self.row.get(),
            message,
        })
    }
}

/// Ends the test with this word where the fact does not hold. A macro in a test's body would branch there, and each
/// branch is proved.
pub fn holds(rt: &impl Abort, word: &str, fact: bool)
    ensures { IsTrue fact }
{
    assert!(rt; fact, "{word}");
}

/// Ends the test with this word and both values where they differ.
pub fn same<T: PartialEq + Debug>(rt: &impl Abort, word: &str, found: &T, wanted: &T) {
    assert!(rt; found == wanted, "{word}: {found:?} in place of {wanted:?}");
}

/// What a call gave. Ends the test with this word where it was refused.
pub fn got<T: Drop, E: Drop>(rt: &impl Abort, word: &str, outcome: Result<T, E>) -> T
    ensures { outcome ≡ Ok result }
{
    match outcome {
        Ok(value) => value,
        Err(_) => panic!(rt; "{word}"),
    }
}
