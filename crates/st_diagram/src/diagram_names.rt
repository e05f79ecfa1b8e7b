//! How states and contents are named.
ghost use Rattle.std.specs.Prelude.{◌≡◌, ℕ, List, IfOk, string_bytes};

use std::alloc::{AllocError, Global};

/// What gives each state and each content a name, for diagrams.
///
/// Ours: a diagram names what the module has types for.
pub trait DiagramNames<S, C> {
    // The bytes of the name of a state.
    ghost state_is: { Self → S → List ℕ };

    // The bytes of the name of a content.
    ghost content_is: { Self → C → List ℕ };

    /// The name of a state, a node of the diagram. It may find no memory.
    ///
    /// Ours: a diagram names what the module has types for.
    fn state(&self, alloc: Global, state: S) -> Result<String, AllocError>
        ensures { IfOk result (λ name. string_bytes name ≡ state_is self.now state) };

    /// The name of a content, which stands behind the kind of its event. It may find no memory.
    ///
    /// Ours: a diagram names what the module has types for.
    fn content(&self, alloc: Global, content: &C) -> Result<String, AllocError>
        ensures { IfOk result (λ name. string_bytes name ≡ content_is self.now content.now) };
}
