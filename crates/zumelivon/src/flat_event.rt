//! The event that the next turn handles, with the state and the data of its machine.

/// The event that the next turn handles, with the state and the data of its machine.
///
/// Ours: c/zumelivon.h.
#[repr(C)]
#[derive(Clone, Copy, Drop)]
pub struct FlatEvent {
    pub number: u64,
    pub kind: u32,
    pub timer: u32,
    pub name: u32,
    pub enters: u32,
    pub machine: u64,
    pub request: u64,
    pub code: u64,
    pub length: u64,
    pub state: u64,
    pub data: u64,
}
