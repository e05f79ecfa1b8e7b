//! What is told of a call beside its bytes.

/// What is told of a call beside its bytes: at `DONE`, and at `NO_ROOM`.
#[repr(C)]
pub struct Told {
    /// 1 where the description, a line or a case was at fault, else 0.
    pub status: u64,
    /// How many bytes the text has, which comes first.
    pub length: u64,
    /// How many bytes the faults have, which come behind it.
    pub faults: u64,
}
