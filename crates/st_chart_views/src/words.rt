//! In which words a table is written.

use crate::scope::Scope;
use st_chart::Vocabulary;
use std::alloc::Global;

/// In which words a part of a table is written.
#[derive(Clone, Copy)]
pub(crate) struct Words<'a> {
    /// From where texts get their memory.
    pub(crate) alloc: Global,
    /// The names.
    pub(crate) names: &'a Vocabulary,
    /// Where the part stands.
    pub(crate) scope: Scope,
}
