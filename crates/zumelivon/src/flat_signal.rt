//! A symbol and a value.

/// A symbol and a value.
///
/// Ours: c/zumelivon.h.
#[repr(C)]
#[derive(Clone, Copy, Drop)]
pub struct FlatSignal {
    pub symbol: u32,
    pub what: u32,
    pub number: u64,
    pub request: u64,
    pub from: u64,
    pub length: u64,
}
