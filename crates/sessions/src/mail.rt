//! A mailbox in lines.

use crate::server::{Step, Textual};
use crate::start::started;
use mail_module::{Answer, Command, Content, Fault, Mail, Mailbox, Phase};
use st_core::{Core, Entry, MachineId, Refusal};
use std::alloc::{AllocError, Global};

/// To whom a machine's messages go: the client.
const CLIENT: MachineId = MachineId { slot: 0, serial: 0 };

/// The mailbox that is served: that of ada, with three mails.
const MAILBOX: Mailbox = Mailbox {
    client: CLIENT,
    owner: 1,
    pin: 1234,
    mails: 3,
};

/// The names that are known; a name's number is its place, counted from 1. Each other name has the number 0.
const NAMES: [&str; 2] = ["ada", "ben"];

/// The number of a name.
fn number_of(name: &str) -> u32 {
    match NAMES {
        [ada, _] if name == ada => 1,
        [_, ben] if name == ben => 2,
        _ => 0,
    }
}

/// What the client says by these words.
fn command_of(words: &[&str]) -> Command {
    match *words {
        ["user", name] => Command::User(number_of(name)),
        ["pass", pin] => pin.parse::<u32>().map_or(Command::Unknown, Command::Pass),
        ["stat"] => Command::Stat,
        ["take", number] => number
            .parse::<u32>()
            .map_or(Command::Unknown, Command::Take),
        ["noop"] => Command::Noop,
        ["quit"] => Command::Quit,
        _ => Command::Unknown,
    }
}

/// What follows `-ERR`.
fn fault_text(fault: Fault) -> &'static str {
    match fault {
        Fault::NoCommand => "no command",
        Fault::NotNow => "not now",
        Fault::Wrong => "wrong",
        Fault::NoMail => "no mail",
        Fault::Idle => "idle",
        Fault::Late => "late",
        Fault::Closing => "closing",
    }
}

/// A line to the client.
fn answer_text(alloc: Global, answer: Answer) -> Result<String, AllocError> {
    match answer {
        Answer::Ready => String::from_str(alloc, "S: +OK ready"),
        Answer::Fine => String::from_str(alloc, "S: +OK"),
        Answer::Mails(count) => format!(in alloc; "S: +OK {count} mails"),
        Answer::Mail(number) => format!(in alloc; "S: +OK mail {number}"),
        Answer::Bye => String::from_str(alloc, "S: +OK bye"),
        Answer::Not(fault) => format!(in alloc; "S: -ERR {}", fault_text(fault)),
    }
}

/// What a reply or a message says. A mailbox sends nothing but lines to the client.
fn content_text(alloc: Global, content: Content) -> Result<String, AllocError> {
    match content {
        Content::Said(answer) => answer_text(alloc, answer),
        _ => Ok(String::new(alloc)),
    }
}

impl Textual for Mail {
    const CALL: &'static str = "C:";

    fn step_of(words: &[&str]) -> Step<Content> {
        match *words {
            [] => Step::Nothing,
            ["connect"] => Step::Start,
            ["arrive"] => Step::Post(Entry::Info, Content::Done),
            _ => Step::Post(Entry::Call, Content::Asked(command_of(words))),
        }
    }

    fn start(alloc: Global, number: u32, moment: u64) -> Result<Option<Box<Core<Mail>>>, Refusal> {
        let id = MachineId {
            slot: 1,
            serial: u64::from(number),
        };
        started(alloc, Mail, id, &MAILBOX, moment)
    }

    fn reply_text(alloc: Global, content: Content, _: Phase) -> Result<String, AllocError> {
        content_text(alloc, content)
    }

    fn message_text(alloc: Global, content: Content) -> Result<String, AllocError> {
        content_text(alloc, content)
    }
}
