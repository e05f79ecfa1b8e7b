//! What a pool's threads carry.
use std::sync::Wait;
use std::thread::Threads;

/// A handle that starts threads and may wait, and goes with each thread by a copy.
///
/// Ours: docs/DECISIONS.md, Pools.
pub trait Runtime: Threads + Wait + Copy + Drop + Send + Sync + 'static {}

impl<R: Threads + Wait + Copy + Drop + Send + Sync + 'static> Runtime for R {}
