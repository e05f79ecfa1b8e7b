//! A message, without its bytes.

/// A message, without its bytes.
///
/// Ours: c/zumelivon.h.
#[repr(C)]
#[derive(Clone, Copy, Drop)]
pub struct FlatMessage {
    pub target: u64,
    pub number: u64,
    pub code: u64,
    pub length: u64,
}
