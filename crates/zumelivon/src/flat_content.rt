//! A reply, without its bytes.

/// A reply, without its bytes.
///
/// Ours: c/zumelivon.h.
#[repr(C)]
#[derive(Clone, Copy, Drop)]
pub struct FlatContent {
    pub code: u64,
    pub length: u64,
    pub reason: u32,
    pub unused: u32,
}
