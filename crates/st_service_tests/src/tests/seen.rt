//! What is seen of a clerk at his hatch.

/// What is seen of a clerk at his hatch, which takes no memory.
#[derive(Drop)]
pub struct Seen {
    /// How often he was told something here.
    pub count: u64,
    /// Why he ended, and his last word, once he has.
    pub ended: Option<(u32, u32)>,
}
