//! How states are named.
ghost use Rattle.std.specs.Prelude.{◌≡◌, ℕ, List};

/// What gives each state a name, for traces.
///
/// Ours: docs/SCRIPTS.md, Traces.
pub trait StateNames<S> {
    // The name of a state.
    ghost name_is: { Self → S → List ℕ };

    /// The name of a state, as it stands in the lines of turns. It takes no memory.
    ///
    /// Ours: docs/SCRIPTS.md, Traces.
    fn name(&self, state: S) -> &str
        ensures { result.now ≡ name_is self.now state };
}
