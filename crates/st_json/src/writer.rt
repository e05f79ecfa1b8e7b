//! What writes, and what is written.
ghost use Rattle.std.specs.Prelude.{◌≡◌, IfOk};
ghost use Rattle.serde_json.specs.Data.{Data};
ghost use Rattle.serde_json.specs.View.{view};

use serde_json::Value;
use std::alloc::{AllocError, Global};

/// What allocates, what names states, and what writes contents.
#[derive_where(Clone, Copy)]
pub(crate) struct Writer<'a, N, J> {
    pub alloc: Global,
    pub names: &'a N,
    pub contents: &'a J,
}

/// What has a form as JSON, by names of states and a form of contents.
pub(crate) trait Written<N, J> {
    // The JSON of it.
    ghost data_is: { N → J → Self → Data };

    /// The JSON of it.
    fn written(&self, by: &Writer<'_, N, J>) -> Result<Value, AllocError>
        ensures { IfOk result (λ value. view value ≡ data_is by.now.names.now by.now.contents.now self.now) };
}
