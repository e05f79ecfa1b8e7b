//! How a hosted machine begins.

/// How a hosted machine begins.
///
/// Ours: c/zumelivon.h.
#[repr(C)]
#[derive(Clone, Copy, Drop)]
pub struct FlatBegin {
    pub state: u64,
    pub data: u64,
    pub enters: u32,
    pub word: u32,
}
