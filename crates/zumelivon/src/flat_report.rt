//! What a start or a turn did: of its lists the lengths.

/// What a start or a turn did: of its lists the lengths.
///
/// Ours: c/zumelivon.h.
#[repr(C)]
#[derive(Clone, Copy, Drop)]
pub struct FlatReport {
    pub event: u64,
    pub has_event: u32,
    pub done: u32,
    pub reason: u32,
    pub word: u32,
    pub before: u64,
    pub after: u64,
    pub calls: u64,
    pub replied: u64,
    pub inserted: u64,
    pub set: u64,
    pub sent: u64,
}
