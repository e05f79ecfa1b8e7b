//! How contents are written.
ghost use Rattle.std.specs.Prelude.{◌≡◌, IfOk};
ghost use Rattle.serde_json.specs.Data.{Data};
ghost use Rattle.serde_json.specs.View.{view};

use serde_json::Value;
use std::alloc::{AllocError, Global};

/// What gives each content a form as JSON, for journals.
///
/// Ours: docs/DECISIONS.md, Journals.
pub trait ContentJson<C> {
    // The JSON of a content.
    ghost json_is: { Self → C → Data };

    /// The JSON of a content, as it stands in the entries of commands and answers. Where there is no memory there is
    /// none; the content is only read.
    ///
    /// Ours: docs/DECISIONS.md, Journals.
    fn json(&self, alloc: Global, content: &C) -> Result<Value, AllocError>
        ensures { IfOk result (λ value. view value ≡ json_is self.now content.now) };
}
