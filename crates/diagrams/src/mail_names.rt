//! The names of a mailbox's states and contents.
ghost use Rattle.std.specs.Prelude.{◌≡◌, IfOk, string_bytes};
ghost use Rattle.diagrams.specs.Names.{phase_name, command_name, content_name};

use mail_module::{Command, Content, Phase};
use st_diagram::DiagramNames;
use std::alloc::{AllocError, Global};

/// The names that a mailbox's diagram has.
#[derive(Clone, Copy)]
pub struct MailNames;

/// The name of a state.
fn phase(phase: Phase) -> &'static str
    ensures { result.now ≡ phase_name phase }
{
    match phase {
        Phase::Greeted => "Greeted",
        Phase::Named => "Named",
        Phase::Open => "Open",
        Phase::Busy(_) => "Busy",
        Phase::Closing => "Closing",
    }
}

/// The name of a command.
fn command(alloc: Global, command: Command) -> Result<String, AllocError>
    ensures { IfOk result (λ name. string_bytes name ≡ command_name command) }
{
    match command {
        Command::User(user) => format!(in alloc; "user {user}"),
        Command::Pass(pin) => format!(in alloc; "pass {pin}"),
        Command::Stat => String::from_str(alloc, "stat"),
        Command::Take(number) => format!(in alloc; "take {number}"),
        Command::Noop => String::from_str(alloc, "noop"),
        Command::Quit => String::from_str(alloc, "quit"),
        Command::Unknown => String::from_str(alloc, "another line"),
    }
}

impl DiagramNames<Phase, Content> for MailNames {
    ghost state_is = { λ names phase. phase_name phase };

    ghost content_is = { λ names content. content_name content };

    fn state(&self, alloc: Global, state: Phase) -> Result<String, AllocError> {
        String::from_str(alloc, phase(state))
    }

    fn content(&self, alloc: Global, content: &Content) -> Result<String, AllocError> {
        match content {
            Content::Asked(asked) => command(alloc, *asked),
            Content::Said(_) => String::from_str(alloc, "said"),
            Content::Done => String::from_str(alloc, "done"),
            Content::TimeOut => String::from_str(alloc, "over"),
        }
    }
}
