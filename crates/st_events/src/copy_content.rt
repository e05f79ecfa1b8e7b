//! What copies contents.
ghost use Rattle.std.specs.Prelude.{◌≡◌, IfOk};

use crate::Module;
use std::alloc::{AllocError, Global};

/// What copies contents. Each callback module does, by its `copy_content`.
///
/// Ours: docs/DECISIONS.md, Copies.
pub trait CopyContent<C> {
    /// A copy of a content, equal to it. It may find no memory.
    ///
    /// Ours: docs/DECISIONS.md, Copies.
    fn copy_of(&self, alloc: Global, content: &C) -> Result<C, AllocError>
        ensures { IfOk result (λ copy. copy ≡ content.now) };
}

impl<M: Module> CopyContent<M::Content> for M {
    fn copy_of(&self, alloc: Global, content: &M::Content) -> Result<M::Content, AllocError> {
        self.copy_content(alloc, content)
    }
}
