//! The words that the program was called with.
ghost use Rattle.std.specs.Io.{WritesAtMost};

use std::env::{Env, FillError};
use std::str;

/// A runtime whose arguments begin with an empty name where the program's own name is not text.
#[derive(Drop)]
pub(crate) struct Called<'a, R> {
    pub(crate) rt: &'a R,
}

impl<R: Alloc> Alloc for Called<'_, R> {
    type A = R::A;

    fn alloc(&self) -> R::A {
        self.rt.alloc()
    }
}

impl<R: Env> Env for Called<'_, R> {
    fn arg(&self, i: usize, buf: &mut [u8]) -> Result<usize, FillError>
        ensures bound { WritesAtMost result buf.new }
    {
        let length = self.rt.arg(i, buf)?;
        if i == 0 && str::from_utf8(&buf[..length]).is_err() {
            return Ok(0);
        }
        Ok(length)
    }

    fn var(&self, name: &str, buf: &mut [u8]) -> Result<usize, FillError>
        ensures bound { WritesAtMost result buf.new }
    {
        self.rt.var(name, buf)
    }

    fn var_at(&self, i: usize, buf: &mut [u8]) -> Result<usize, FillError>
        ensures bound { WritesAtMost result buf.new }
    {
        self.rt.var_at(i, buf)
    }
}
