//! What a command line asks for.

use st_machine::{Drawing, Format};

/// What the program is asked to do.
#[derive(Drop)]
pub(crate) enum Order {
    /// Tell what is wrong with a description.
    Check(String),
    /// Draw it.
    Draw(String, Drawing),
    /// Print it laid out.
    Write(String),
    /// Run events, which are read from standard input.
    Run(String, Format),
    /// Run them while the clock goes on.
    Live(String, Format),
    /// Run cases, from the second file, and compare.
    Test(String, String),
    /// Run cases, and write what comes of them in the place of what was expected.
    Rewrite(String, String),
    /// Print the format of descriptions.
    Schema,
}
