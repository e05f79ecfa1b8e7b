//! A machine as it is.

/// A machine as it is.
///
/// Ours: c/zumelivon.h.
#[repr(C)]
#[derive(Clone, Copy, Drop)]
pub struct FlatMachine {
    pub state: u64,
    pub data: u64,
    pub latest: u64,
    pub waiting: u64,
    pub due: u64,
    pub has_due: u32,
    pub has_event: u32,
    pub has_message: u32,
    pub ended: u32,
    pub reason: u32,
    pub word: u32,
}
