//! What a script came to that was run in memory.

/// The bytes that a script printed, and its status: 1 where a line was refused or malformed, else 0.
///
/// Ours: docs/SCRIPTS.md.
#[derive(Drop)]
pub struct RunOutput {
    pub output: Vec<u8>,
    pub status: u8,
}
