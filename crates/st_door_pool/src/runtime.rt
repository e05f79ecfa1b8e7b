//! What a script's workers carry.
use std::random::RandomSource;

/// What a pool's threads carry, and where random bytes come from.
///
/// Ours: docs/DECISIONS.md, Directories.
pub trait Runtime: st_pool::Runtime + RandomSource {}

impl<R: st_pool::Runtime + RandomSource> Runtime for R {}
