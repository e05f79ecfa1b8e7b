//! A machine whose doings are told, and values in its words.

use crate::book::Book;
use crate::machine::Machine;
use crate::page::Page;
use st_chart::Names;
use st_events::{Kind, MachineId, Timer};
use st_table::{Place, Signal, Value};
use std::alloc::Global;

/// A machine whose doings are told, with the names for that.
#[derive(Clone, Copy)]
pub(crate) struct Speaker<'a> {
    pub(crate) alloc: Global,
    pub(crate) machine: &'a Machine,
    /// Its name.
    pub(crate) name: &'a str,
    /// The description that it runs.
    pub(crate) book: &'a Book,
    /// The names of all machines, by their places.
    pub(crate) machines: &'a Names,
}

impl<'a> Speaker<'a> {
    /// The name of a state.
    pub(crate) fn state(&self, place: Place) -> &'a str {
        self.book.chart.names.states.name(place.number)
    }

    /// The name of a timer.
    pub(crate) fn timer(&self, timer: Timer) -> &'a str {
        match timer {
            Timer::Event => "event",
            Timer::State => "state",
            Timer::Named(number) => self.book.chart.names.timers.name(number),
        }
    }

    /// Writes a machine's name, or its id where it is none of the session.
    pub(crate) fn put_machine(&self, id: MachineId, page: &mut Page) {
        let MachineId { slot, serial } = id;
        match u32::try_from(slot) {
            Ok(place) if slot < self.machines.len() => page.put(self.machines.name(place)),
            _ => {
                page.put("machine(");
                page.put_number(slot as u64);
                page.put(",");
                page.put_number(serial);
                page.put(")");
            }
        }
    }

    /// Writes a value.
    pub(crate) fn put_value(&self, value: &Value, page: &mut Page) {
        match value {
            Value::Nothing => page.put("none"),
            Value::Number(number) => page.put_number(*number),
            Value::Call(tag) => {
                page.put("call#");
                page.put_number(tag.request);
                if tag.machine != self.machine.core.id() {
                    page.put(" of ");
                    self.put_machine(tag.machine, page);
                }
            }
            Value::Machine(id) => self.put_machine(*id, page),
            Value::Text(text) => {
                page.put("'");
                page.put(text.as_str());
                page.put("'");
            }
        }
    }

    /// Writes a signal: its symbol, and its argument where that is not nothing.
    pub(crate) fn put_signal(&self, signal: &Signal, page: &mut Page) {
        page.put(self.book.chart.names.symbols.name(signal.symbol));
        if let Value::Nothing = &signal.argument {
            return;
        }
        page.put("(");
        self.put_value(&signal.argument, page);
        page.put(")");
    }

    /// Writes a time-out, and what it says, where that is something of its own.
    fn put_timeout(&self, timer: Timer, signal: &Signal, page: &mut Page) {
        page.put("timeout ");
        page.put(self.timer(timer));
        let is_bare = matches!(&signal.argument, Value::Nothing);
        if is_bare && self.book.chart.names.symbols.name(signal.symbol) == "timeout" {
            return;
        }
        page.put(" ");
        self.put_signal(signal, page);
    }

    /// Writes an event.
    pub(crate) fn put_event(&self, kind: Kind, signal: &Signal, page: &mut Page) {
        let word = match kind {
            Kind::Timeout(timer) => return self.put_timeout(timer, signal, page),
            Kind::Call(_) => "call ",
            Kind::Cast => "cast ",
            Kind::Info => "info ",
            Kind::Internal => "internal ",
        };
        page.put(word);
        self.put_signal(signal, page);
    }
}
