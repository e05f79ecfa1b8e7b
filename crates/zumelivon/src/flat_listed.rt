//! An element of a list of a report.

/// An element of a list of a report.
///
/// Ours: c/zumelivon.h.
#[repr(C)]
#[derive(Clone, Copy, Drop)]
pub struct FlatListed {
    pub machine: u64,
    pub number: u64,
    pub timer: u32,
    pub name: u32,
    pub decision: u32,
    pub time: u32,
    pub infinite: u32,
    pub unused: u32,
}
