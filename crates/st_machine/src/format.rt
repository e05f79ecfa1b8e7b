//! What a session writes.

/// What a session writes.
#[derive(Clone, Copy)]
pub enum Format {
    /// A transcript: each line of events, and what came of it.
    Plain,
    /// A trace of each machine, at the end.
    Trace,
    /// The journal of each machine as lines of JSON, at the end.
    Json,
    /// Behind each line what was told of it, and how all machines are, as a line of JSON.
    Look,
}
