//! What the client asks for.

/// What a line of the client asks for. A name is a number here: the program knows which.
///
/// Ours: the commands of a small mailbox.
#[derive(Clone, Copy, PartialEq, Eq)]
pub enum Command {
    /// The client has this name. Ours: `user NAME`.
    User(u32),
    /// Its PIN is this. Ours: `pass N`.
    Pass(u32),
    /// How many mails are there? Ours: `stat`.
    Stat,
    /// The mail of this number is wanted. Ours: `take N`.
    Take(u32),
    /// Nothing is wanted, but that time does not run out. Ours: `noop`.
    Noop,
    /// The client goes. Ours: `quit`.
    Quit,
    /// The line is no command. Ours: any other line.
    Unknown,
}
