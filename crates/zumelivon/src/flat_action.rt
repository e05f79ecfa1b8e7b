//! One action. Its content is a code, and so many of the bytes of the call, from a place on.

/// One action. Its content is a code, and so many of the bytes of the call, from a place on.
///
/// Ours: c/zumelivon.h.
#[repr(C)]
#[derive(Clone, Copy, Drop)]
pub struct FlatAction {
    pub what: u32,
    pub kind: u32,
    pub postpone: u32,
    pub timer: u32,
    pub name: u32,
    pub time: u32,
    pub infinite: u32,
    pub unused: u32,
    pub machine: u64,
    pub request: u64,
    pub code: u64,
    pub from: u64,
    pub length: u64,
}
