//! The end of a session: traces, and journals as JSON.

use crate::contents::Contents;
use crate::texts::Texts;
use crate::world::{World, machine_in};
use crate::{Format, Session};
use serde_json::json;
use st_cell::Journal;
use st_events::PlainList;
use st_json::{Value as Json, entry_json_line};
use st_trace::trace_text;
use std::alloc::{AllocError, Global};
use std::mem;

/// The JSON of a list of texts.
fn list_json(alloc: Global, texts: &[String]) -> Result<Json, AllocError> {
    let mut list = Vec::new(alloc);
    for text in texts {
        list.push(Json::try_from_str(alloc, text.as_str())?)?;
    }
    Ok(Json::Array(list))
}

impl World {
    /// Adds the trace of the machine at a place, which loses its journal, to a text.
    fn trace(&mut self, place: usize, out: &mut Vec<u8>) -> Result<(), AllocError> {
        let Some(by) = self.speaker(place) else {
            return Ok(());
        };
        let label = String::from_str(self.alloc, by.name)?;
        let Some(machine) = machine_in(&mut self.machines, place) else {
            return Ok(());
        };
        let entries = mem::replace(&mut machine.entries, Vec::new(self.alloc));
        let journal = Journal {
            id: machine.core.id(),
            label,
            from: machine.from,
            entries: PlainList::from(entries),
        };
        let Some(book) = self.books.get(machine.book) else {
            return Ok(());
        };
        let text = trace_text(self.alloc, &journal, &book.states)?;
        out.extend_from_slice(text.as_slice())
    }

    /// The first line of the JSON lines of the machine at a place.
    fn head(&self, place: usize) -> Result<String, AllocError> {
        let alloc = self.alloc;
        let Some(by) = self.speaker(place) else {
            return Err(AllocError);
        };
        let arguments = list_json(alloc, by.machine.arguments.as_slice())?;
        let id = by.machine.core.id();
        let slot = id.slot;
        let serial = id.serial;
        let moment = by.machine.from;
        let name = by.name;
        let digest = by.book.digest.as_str();
        let head = json!(in alloc; {
            "machine": name,
            "slot": slot,
            "serial": serial,
            "moment": moment,
            "arguments": arguments,
            "digest": digest
        })?;
        let mut line = head.to_string(alloc)?;
        line.push_str("\n")?;
        Ok(line)
    }

    /// Adds the journal of the machine at a place, as lines of JSON, to a text.
    fn lines(&self, place: usize, out: &mut Vec<u8>) -> Result<(), AllocError> {
        let Some(by) = self.speaker(place) else {
            return Ok(());
        };
        let head = self.head(place)?;
        out.extend_from_slice(head.as_str().as_bytes())?;
        let symbols = Texts::copied(self.alloc, &by.book.chart.names.symbols)?;
        let contents = Contents { symbols };
        for entry in by.machine.entries.as_slice() {
            let line = entry_json_line(self.alloc, &by.book.states, &contents, entry)?;
            out.extend_from_slice(line.as_str().as_bytes())?;
        }
        Ok(())
    }
}

impl Session {
    /// Adds what is written at the end to a text: the machines' traces, or their journals as lines of JSON. It is called
    /// once.
    pub fn finish(&mut self, out: &mut Vec<u8>) -> Result<(), AllocError> {
        for place in 0..self.world.names.len() {
            match self.format {
                Format::Plain | Format::Look => {}
                Format::Trace => self.world.trace(place, out)?,
                Format::Json => self.world.lines(place, out)?,
            }
        }
        Ok(())
    }
}
