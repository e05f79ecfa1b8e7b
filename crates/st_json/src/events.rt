//! The JSON of events, and of what comes with them.
ghost use Rattle.std.specs.Prelude.{◌≡◌};
ghost use Rattle.st_json.specs.Events.{id_data, tag_data, timer_data, time_data, decision_data, kind_data, refusal_word, refusal_data, refused_data, message_data, collected_data};

use crate::ContentJson;
use crate::forms::{ContentIn, named, with};
use crate::writer::{Writer, Written};
use serde_json::{Map, Value};
use st_events::{Decision, Kind, MachineId, Message, Refusal, Refused, Tag, Time, Timer};
use st_requests::Collected;
use std::alloc::AllocError;

impl<N, J> Written<N, J> for MachineId {
    ghost data_is = { λ names contents id. id_data id };

    fn written(&self, by: &Writer<'_, N, J>) -> Result<Value, AllocError> {
        let members = with(by, Map::new(by.alloc), "slot", &self.slot)?;
        let members = with(by, members, "serial", &self.serial)?;
        Ok(Value::Object(members))
    }
}

impl<N, J> Written<N, J> for Tag {
    ghost data_is = { λ names contents tag. tag_data tag };

    fn written(&self, by: &Writer<'_, N, J>) -> Result<Value, AllocError> {
        let members = with(by, Map::new(by.alloc), "request", &self.request)?;
        let members = with(by, members, "machine", &self.machine)?;
        Ok(Value::Object(members))
    }
}

impl<N, J> Written<N, J> for Timer {
    ghost data_is = { λ names contents timer. timer_data timer };

    fn written(&self, by: &Writer<'_, N, J>) -> Result<Value, AllocError> {
        match self {
            Timer::Event => Value::try_from_str(by.alloc, "Event"),
            Timer::State => Value::try_from_str(by.alloc, "State"),
            Timer::Named(name) => named(by, "Named", name),
        }
    }
}

impl<N, J> Written<N, J> for Time {
    ghost data_is = { λ names contents time. time_data time };

    fn written(&self, by: &Writer<'_, N, J>) -> Result<Value, AllocError> {
        match self {
            Time::After(span) => named(by, "After", span),
            Time::Infinity => Value::try_from_str(by.alloc, "Infinity"),
        }
    }
}

impl<N, J> Written<N, J> for Decision {
    ghost data_is = { λ names contents decision. decision_data decision };

    fn written(&self, by: &Writer<'_, N, J>) -> Result<Value, AllocError> {
        match self {
            Decision::Set(time) => named(by, "Set", time),
            Decision::Cancel => Value::try_from_str(by.alloc, "Cancel"),
            Decision::Update => Value::try_from_str(by.alloc, "Update"),
        }
    }
}

impl<N, J> Written<N, J> for Kind {
    ghost data_is = { λ names contents kind. kind_data kind };

    fn written(&self, by: &Writer<'_, N, J>) -> Result<Value, AllocError> {
        match self {
            Kind::Call(tag) => named(by, "Call", tag),
            Kind::Cast => Value::try_from_str(by.alloc, "Cast"),
            Kind::Info => Value::try_from_str(by.alloc, "Info"),
            Kind::Timeout(timer) => named(by, "Timeout", timer),
            Kind::Internal => Value::try_from_str(by.alloc, "Internal"),
        }
    }
}

/// The name of a refusal.
fn refusal_word(refusal: &Refusal) -> &'static str
    ensures { result.now ≡ refusal_word refusal.now }
{
    match refusal {
        Refusal::NoMemory => "NoMemory",
        Refusal::Stopped(_) => "Stopped",
        Refusal::Exhausted => "Exhausted",
        Refusal::Moment => "Moment",
        Refusal::NotPossible => "NotPossible",
        Refusal::NotQueued => "NotQueued",
        Refusal::AlreadyStarted(_) => "AlreadyStarted",
        Refusal::NoSuchName => "NoSuchName",
        Refusal::NoSuchMachine => "NoSuchMachine",
        Refusal::NotStopped => "NotStopped",
        Refusal::Full => "Full",
        Refusal::BadName => "BadName",
    }
}

impl<N, J> Written<N, J> for Refusal {
    ghost data_is = { λ names contents refusal. refusal_data refusal };

    fn written(&self, by: &Writer<'_, N, J>) -> Result<Value, AllocError> {
        let word = refusal_word(self);
        match self {
            Refusal::Stopped(reason) => named(by, word, reason),
            Refusal::AlreadyStarted(id) => named(by, word, id),
            _ => Value::try_from_str(by.alloc, word),
        }
    }
}

impl<C, N, J: ContentJson<C>> Written<N, J> for Refused<C> {
    ghost data_is = { λ names contents refused. refused_data (J.json_is contents) refused };

    fn written(&self, by: &Writer<'_, N, J>) -> Result<Value, AllocError> {
        let value = ContentIn {
            content: &self.value,
        };
        let members = with(by, Map::new(by.alloc), "value", &value)?;
        let members = with(by, members, "refusal", &self.refusal)?;
        Ok(Value::Object(members))
    }
}

impl<C, N, J: ContentJson<C>> Written<N, J> for Message<C> {
    ghost data_is = { λ names contents message. message_data (J.json_is contents) message };

    fn written(&self, by: &Writer<'_, N, J>) -> Result<Value, AllocError> {
        let content = ContentIn {
            content: &self.content,
        };
        let members = with(by, Map::new(by.alloc), "target", &self.target)?;
        let members = with(by, members, "sender", &self.sender)?;
        let members = with(by, members, "number", &self.number)?;
        let members = with(by, members, "content", &content)?;
        Ok(Value::Object(members))
    }
}

impl<C, N, J: ContentJson<C>> Written<N, J> for Collected<C> {
    ghost data_is = { λ names contents collected. collected_data (J.json_is contents) collected };

    fn written(&self, by: &Writer<'_, N, J>) -> Result<Value, AllocError> {
        match self {
            Collected::Waiting => Value::try_from_str(by.alloc, "Waiting"),
            Collected::Reply(content) => named(by, "Reply", &ContentIn { content }),
            Collected::Stopped(reason) => named(by, "Stopped", reason),
            Collected::Gone => Value::try_from_str(by.alloc, "Gone"),
        }
    }
}
