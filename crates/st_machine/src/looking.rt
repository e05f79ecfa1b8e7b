//! How machines are, as JSON: all that there is to know of each.

use crate::Session;
use crate::contents::value_json;
use crate::page::Page;
use crate::speaker::Speaker;
use crate::watched::Watched;
use crate::world::{World, machine_in};
use serde_json::json;
use st_agenda::Item;
use st_core::Snapshot;
use st_events::{Event, Message, PlainList};
use st_json::Value as Json;
use st_requests::{Request, RequestState};
use st_table::{Signal, Value};
use st_timeouts::{Due, Running};
use std::alloc::{AllocError, Global};

/// A number, or null.
fn number_json(number: Option<u64>) -> Json {
    match number {
        Some(number) => Json::from(number),
        None => Json::Null,
    }
}

/// What was written on a page, as a text.
fn page_json(alloc: Global, page: Page) -> Result<Json, AllocError> {
    let mut text = Vec::new(alloc);
    page.hand_out(&mut text)?;
    Json::try_from_str(alloc, str::from_utf8(text.as_slice()).unwrap_or(""))
}

impl Speaker<'_> {
    /// An event that waits, with the line of events that it came of.
    fn event_json(&self, event: &Event<Signal>, is_postponed: bool) -> Result<Json, AllocError> {
        let alloc = self.alloc;
        let mut page = Page::new(alloc, 0, false);
        self.put_event(event.kind, &event.content, &mut page);
        let text = page_json(alloc, page)?;
        let number = event.number;
        let line = number_json(self.machine.line_of(number));
        json!(in alloc; {"event": text, "number": number, "postponed": is_postponed, "line": line})
    }

    /// The expiry of a time-out, which waits.
    fn expiry_json(&self, name: &str) -> Result<Json, AllocError> {
        let alloc = self.alloc;
        json!(in alloc; {"expired": name})
    }

    /// What waits, in order.
    fn waiting_json(&self, snapshot: &Snapshot<Watched>) -> Result<Json, AllocError> {
        let mut list = Vec::new(self.alloc);
        let postponed = snapshot.schedule.postponed.as_slice();
        for item in snapshot.schedule.pending.as_slice() {
            let json = match item {
                Item::Received(event) => self.event_json(event, postponed.contains(&event.number))?,
                Item::Posted(event) => self.event_json(event, false)?,
                Item::Expiry(timer) => self.expiry_json(self.timer(*timer))?,
            };
            list.push(json)?;
        }
        Ok(Json::Array(list))
    }

    /// A time-out that runs.
    fn running_json(&self, running: &Running<Signal>) -> Result<Json, AllocError> {
        let alloc = self.alloc;
        let mut page = Page::new(alloc, 0, false);
        self.put_signal(&running.content, &mut page);
        let text = page_json(alloc, page)?;
        let timer = self.timer(running.timer);
        let number = running.number;
        let line = number_json(self.machine.line_of(number));
        let due = match running.due {
            Due::Zero => Json::Null,
            Due::At(moment) => Json::from(moment),
        };
        json!(in alloc; {"timer": timer, "due": due, "says": text, "number": number, "line": line})
    }

    /// The time-outs that run.
    fn timers_json(&self, snapshot: &Snapshot<Watched>) -> Result<Json, AllocError> {
        let mut list = Vec::new(self.alloc);
        for running in snapshot.schedule.running.as_slice() {
            list.push(self.running_json(running)?)?;
        }
        Ok(Json::Array(list))
    }

    /// A call that waits for its reply.
    fn request_json(&self, request: &Request<Signal>) -> Result<Json, AllocError> {
        let alloc = self.alloc;
        let number = request.tag.request;
        let line = number_json(self.machine.line_of(number));
        json!(in alloc; {"call": number, "line": line})
    }

    /// The calls that wait for their replies.
    fn requests_json(&self, snapshot: &Snapshot<Watched>) -> Result<Json, AllocError> {
        let mut list = Vec::new(self.alloc);
        for request in snapshot.requests.as_slice() {
            if let RequestState::Open = request.held {
                list.push(self.request_json(request)?)?;
            }
        }
        Ok(Json::Array(list))
    }

    /// A message that was not delivered yet.
    fn message_json(&self, message: &Message<Signal>) -> Result<Json, AllocError> {
        let alloc = self.alloc;
        let mut page = Page::new(alloc, 0, false);
        self.put_signal(&message.content, &mut page);
        let text = page_json(alloc, page)?;
        let mut page = Page::new(alloc, 0, false);
        self.put_machine(message.target, &mut page);
        let target = page_json(alloc, page)?;
        json!(in alloc; {"says": text, "to": target})
    }

    /// The messages that were not delivered yet.
    fn messages_json(&self, snapshot: &Snapshot<Watched>) -> Result<Json, AllocError> {
        let mut list = Vec::new(self.alloc);
        for message in snapshot.outbox.messages.as_slice() {
            list.push(self.message_json(message)?)?;
        }
        Ok(Json::Array(list))
    }

    /// A register.
    fn register_json(&self, number: usize, value: &Value) -> Result<Json, AllocError> {
        let alloc = self.alloc;
        let name = match u32::try_from(number) {
            Ok(number) => self.book.chart.names.registers.name(number),
            Err(_) => "?",
        };
        let mut page = Page::new(alloc, 0, false);
        self.put_value(value, &mut page);
        let text = page_json(alloc, page)?;
        let value = value_json(alloc, value)?;
        json!(in alloc; {"name": name, "text": text, "value": value})
    }

    /// The registers.
    fn registers_json(&self, registers: &PlainList<Value>) -> Result<Json, AllocError> {
        let mut list = Vec::new(self.alloc);
        for number in 0..registers.len() {
            if let Some(value) = registers.get(number) {
                list.push(self.register_json(number, value)?)?;
            }
        }
        Ok(Json::Array(list))
    }

    /// The reason and the last word of a machine that has ended, or null.
    fn ended_json(&self) -> Result<Json, AllocError> {
        let alloc = self.alloc;
        match self.machine.core.ended() {
            Some((reason, word)) => {
                let reason = u64::from(reason);
                let word = u64::from(word);
                json!(in alloc; {"reason": reason, "word": word})
            }
            None => Ok(Json::Null),
        }
    }

    /// How the machine is, of which this is the snapshot.
    fn look_json(&self, snapshot: &Snapshot<Watched>) -> Result<Json, AllocError> {
        let alloc = self.alloc;
        let name = self.name;
        let state = self.state(snapshot.state);
        let latest = snapshot.latest;
        let data = self.registers_json(&snapshot.data)?;
        let waiting = self.waiting_json(snapshot)?;
        let timers = self.timers_json(snapshot)?;
        let requests = self.requests_json(snapshot)?;
        let messages = self.messages_json(snapshot)?;
        let ended = self.ended_json()?;
        json!(in alloc; {
            "machine": name,
            "state": state,
            "data": data,
            "latest": latest,
            "waiting": waiting,
            "timers": timers,
            "requests": requests,
            "messages": messages,
            "ended": ended
        })
    }
}

impl World {
    /// How the machine at a place is, where one was started there. The numbers that it has given out since the last look
    /// came of this line.
    fn look(&mut self, place: usize, line: u64) -> Result<Option<Json>, AllocError> {
        let Some(machine) = machine_in(&mut self.machines, place) else {
            return Ok(None);
        };
        machine.number_line(line)?;
        let Ok(snapshot) = machine.core.snapshot() else {
            return Err(AllocError);
        };
        match self.speaker(place) {
            Some(by) => Ok(Some(by.look_json(&snapshot)?)),
            None => Ok(None),
        }
    }

    /// How all machines are that were started.
    fn looks(&mut self, line: u64) -> Result<Json, AllocError> {
        let mut list = Vec::new(self.alloc);
        for place in 0..self.names.len() {
            if let Some(json) = self.look(place, line)? {
                list.push(json)?;
            }
        }
        Ok(Json::Array(list))
    }
}

impl Session {
    /// Adds what was told of a line, and how all machines are behind it, to a text, as one line of JSON.
    pub(crate) fn look(&mut self, page: Page, out: &mut Vec<u8>) -> Result<(), AllocError> {
        let alloc = self.world.alloc;
        let line = self.line;
        let moment = self.moment;
        let is_faulty = page.faulty;
        let told = page_json(alloc, page)?;
        let machines = self.world.looks(line)?;
        let json = json!(in alloc; {
            "line": line,
            "moment": moment,
            "faulty": is_faulty,
            "told": told,
            "machines": machines
        })?;
        let mut text = json.to_string(alloc)?;
        text.push_str("\n")?;
        out.extend_from_slice(text.as_str().as_bytes())
    }
}
