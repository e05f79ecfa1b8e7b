//! What a line of the input brings about.

use lift_module::Content;

/// What a line brings about.
#[derive(Clone, Copy, Debug, PartialEq, Eq)]
pub enum Step {
    /// Nothing but that the moment is told.
    Nothing,
    /// The cabin is called, with this content.
    Call(Content),
    /// The cabin is told this.
    Cabin(Content),
    /// The door is told this.
    Door(Content),
    /// Both machines are stopped.
    Stop,
    /// Nothing: the line is no command.
    Unknown,
}

/// A call to a floor.
fn call_to(floor: u8) -> Step {
    Step::Call(Content::Go(floor))
}

/// Where the cabin is to park.
fn park_at(floor: u8) -> Step {
    Step::Cabin(Content::Park(floor))
}

/// What these words bring about.
pub fn step_of(words: &[&str]) -> Step {
    match *words {
        [] => Step::Nothing,
        ["go", floor] => floor.parse::<u8>().map_or(Step::Unknown, call_to),
        ["park", floor] => floor.parse::<u8>().map_or(Step::Unknown, park_at),
        ["halt"] => Step::Cabin(Content::Halt),
        ["block"] => Step::Door(Content::Blocked),
        ["force"] => Step::Door(Content::OpenUp),
        ["stop"] => Step::Stop,
        _ => Step::Unknown,
    }
}
