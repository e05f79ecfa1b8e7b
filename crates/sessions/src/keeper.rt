//! A connection of a pool in lines.

use crate::server::{Step, Textual};
use crate::start::started;
use keeper_module::{Connection, Content, Link, Place};
use st_core::{Core, Entry, MachineId, Refusal};
use std::alloc::{AllocError, Global};

/// To whom a machine's messages go: the owner, which is whoever writes the lines.
const OWNER: MachineId = MachineId { slot: 0, serial: 0 };

/// What a word alone brings about.
fn said(word: &str) -> Step<Content> {
    match word {
        "start" => Step::Start,
        "count" => Step::Post(Entry::Call, Content::Count),
        "connected" => Step::Post(Entry::Info, Content::Connected),
        "progress" => Step::Post(Entry::Info, Content::Progress),
        "failed" => Step::Post(Entry::Info, Content::Failed),
        "lost" => Step::Post(Entry::Info, Content::Lost),
        _ => Step::Unknown,
    }
}

/// What a client says by a word, and by its number.
fn said_by(word: &str, client: u32) -> Step<Content> {
    match word {
        "out" => Step::Post(Entry::Call, Content::CheckOut(client)),
        "in" => Step::Post(Entry::Cast, Content::CheckIn(client)),
        "renew" => Step::Post(Entry::Cast, Content::Renew(client)),
        _ => Step::Unknown,
    }
}

impl Textual for Connection {
    const CALL: &'static str = "--";

    fn step_of(words: &[&str]) -> Step<Content> {
        match *words {
            [] => Step::Nothing,
            [word] => said(word),
            [word, client] => client
                .parse::<u32>()
                .map_or(Step::Unknown, |client| said_by(word, client)),
            _ => Step::Unknown,
        }
    }

    fn start(
        alloc: Global,
        number: u32,
        moment: u64,
    ) -> Result<Option<Box<Core<Connection>>>, Refusal> {
        let id = MachineId {
            slot: 1,
            serial: u64::from(number),
        };
        let arg = Place {
            owner: OWNER,
            number,
        };
        started(alloc, Connection, id, &arg, moment)
    }

    fn reply_text(alloc: Global, content: Content, after: Link) -> Result<String, AllocError> {
        match (content, after) {
            (Content::CheckedOut(number), Link::Busy(client)) => {
                format!(in alloc; "reply: client {client} has connection {number}")
            }
            (Content::Counted(count), _) => format!(in alloc; "reply: count {count}"),
            _ => Ok(String::new(alloc)),
        }
    }

    fn message_text(alloc: Global, content: Content) -> Result<String, AllocError> {
        match content {
            Content::Connect => String::from_str(alloc, "message: connect"),
            Content::Close => String::from_str(alloc, "message: close"),
            Content::Reclaimed(client) => {
                format!(in alloc; "message: reclaimed from client {client}")
            }
            _ => Ok(String::new(alloc)),
        }
    }
}
