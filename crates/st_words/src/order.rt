//! What a command line asks for.

/// What the program is asked to do.
///
/// Ours: docs/SCRIPTS.md, The command line.
#[derive(Clone, Copy, Debug, PartialEq, Eq)]
pub enum Order {
    /// Run a script and print a line for each of its commands.
    Run,
    /// Run a script and print the trace of each of its doors.
    Trace,
    /// Run a script by this many workers, 1 to 16, and print what `Run` prints.
    Pool(u8),
}
