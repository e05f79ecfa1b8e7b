//! What a host answers, without its actions.

/// What a host answers, without its actions.
///
/// Ours: c/zumelivon.h.
#[repr(C)]
#[derive(Clone, Copy, Drop)]
pub struct FlatAnswer {
    pub what: u32,
    pub reason: u32,
    pub has_data: u32,
    pub unused: u32,
    pub state: u64,
    pub data: u64,
}
