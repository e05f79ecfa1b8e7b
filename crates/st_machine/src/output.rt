//! What came of a description.

use std::alloc::Global;

/// What came of a description: of a run, a check, a drawing.
#[derive(Drop)]
pub struct Output {
    /// What was written. Where the description has faults it is empty, for nothing was done.
    pub text: Vec<u8>,
    /// The description's faults, one a line.
    pub faults: Vec<u8>,
    /// 1 where the description or a line of events was at fault, else 0.
    pub status: u8,
}

impl Output {
    /// Nothing yet, of a description that was not read.
    pub(crate) fn new(alloc: Global) -> Output {
        Output {
            text: Vec::new(alloc),
            faults: Vec::new(alloc),
            status: 1,
        }
    }
}
