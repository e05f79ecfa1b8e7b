//! The JSON of entries: where they came from, the command, and the answer.
ghost use Rattle.st_json.specs.Entries.{posted_data, source_data, command_data, answer_data, entry_data};

use crate::ContentJson;
use crate::forms::{ContentIn, named, named_pair, with};
use crate::writer::{Writer, Written};
use serde_json::{Map, Value};
use st_cell::{Answer, Command, Entry, JournalEntry, Source};
use st_trace::StateNames;
use std::alloc::AllocError;

impl<N, J> Written<N, J> for Entry {
    ghost data_is = { λ names contents how. posted_data how };

    fn written(&self, by: &Writer<'_, N, J>) -> Result<Value, AllocError> {
        match self {
            Entry::Call => Value::try_from_str(by.alloc, "Call"),
            Entry::Cast => Value::try_from_str(by.alloc, "Cast"),
            Entry::Info => Value::try_from_str(by.alloc, "Info"),
        }
    }
}

impl<N, J> Written<N, J> for Source {
    ghost data_is = { λ names contents source. source_data source };

    fn written(&self, by: &Writer<'_, N, J>) -> Result<Value, AllocError> {
        match self {
            Source::Caller => Value::try_from_str(by.alloc, "Caller"),
            Source::Port(port) => named(by, "Port", port),
            Source::Message(sender, number) => named_pair(by, "Message", sender, number),
        }
    }
}

impl<C, N, J: ContentJson<C>> Written<N, J> for Command<C> {
    ghost data_is = { λ names contents command. command_data (J.json_is contents) command };

    fn written(&self, by: &Writer<'_, N, J>) -> Result<Value, AllocError> {
        match self {
            Command::Post(how, content) => named_pair(by, "Post", how, &ContentIn { content }),
            Command::Tick(now) => named(by, "Tick", now),
            Command::Turn(now) => named(by, "Turn", now),
            Command::Reply(tag, content) => named_pair(by, "Reply", tag, &ContentIn { content }),
            Command::Collect(tag) => named(by, "Collect", tag),
            Command::Stop(reason) => named(by, "Stop", reason),
            Command::TakeOut => Value::try_from_str(by.alloc, "TakeOut"),
        }
    }
}

impl<S: Copy, C, N: StateNames<S>, J: ContentJson<C>> Written<N, J> for Answer<S, C> {
    ghost data_is = { λ names contents answer. answer_data (N.name_is names) (J.json_is contents) answer };

    fn written(&self, by: &Writer<'_, N, J>) -> Result<Value, AllocError> {
        match self {
            Answer::Post(posted) => named(by, "Post", posted),
            Answer::Tick(ticked) => named(by, "Tick", ticked),
            Answer::Turn(turned) => named(by, "Turn", turned),
            Answer::Reply(taken) => named(by, "Reply", taken),
            Answer::Collect(collected) => named(by, "Collect", collected),
            Answer::Stop(stopped) => named(by, "Stop", stopped),
            Answer::TakeOut(message) => named(by, "TakeOut", message),
        }
    }
}

impl<S: Copy, C, N: StateNames<S>, J: ContentJson<C>> Written<N, J> for JournalEntry<S, C> {
    ghost data_is = { λ names contents entry. entry_data (N.name_is names) (J.json_is contents) entry };

    fn written(&self, by: &Writer<'_, N, J>) -> Result<Value, AllocError> {
        let members = with(by, Map::new(by.alloc), "source", &self.source)?;
        let members = with(by, members, "number", &self.number)?;
        let members = with(by, members, "command", &self.command)?;
        let members = with(by, members, "answer", &self.answer)?;
        Ok(Value::Object(members))
    }
}
