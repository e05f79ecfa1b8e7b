//! The ways in which a script is run.

/// How a script is run.
#[derive(Clone, Copy, Debug, PartialEq, Eq)]
pub enum Mode {
    /// Each line prints what it brings about.
    Run,
    /// The lines print nothing. At the end each door that is left prints its trace: what it was told, and what it answered.
    Trace,
}
