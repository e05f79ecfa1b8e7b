//! What came of a trial.

/// What came of a trial of cases.
#[derive(Drop)]
pub struct Tested {
    /// How each case ended, one a line, and how many did so.
    pub text: Vec<u8>,
    /// The cases as they came: what is expected gives way to what came.
    pub written: Vec<u8>,
    /// The description's faults, one a line; then no case was tried. Else that of the cases, if a line is expected before
    /// any line of events.
    pub faults: Vec<u8>,
    /// 1 where the description has faults or a case differs, else 0.
    pub status: u8,
}
