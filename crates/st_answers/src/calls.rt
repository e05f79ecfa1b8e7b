//! Lists of callbacks that were made.

use crate::{Call, OneInline};

/// The callbacks that a start or a turn made, in order: most make one, and take no memory for it.
///
/// Ours: docs/DECISIONS.md, Lists in values that definitions compare.
pub type Calls<S> = OneInline<Call<S>>;
