//! The lift: a cabin and its door.

mod machine;
mod step;

use crate::line::{Line, read_line};
use crate::log::add;
use crate::start::started;
use crate::time::{LIMIT, due, tick};
use lift_module::{Cabin, Content, Door};
use machine::{post, settle, stop};
use st_core::{Core, Entry, MachineId, Module, Refusal};
use std::alloc::Global;
use step::{Step, step_of};

/// The cabin.
const CABIN: MachineId = MachineId { slot: 0, serial: 1 };

/// The door.
const DOOR: MachineId = MachineId { slot: 1, serial: 1 };

/// The lift: a cabin and its door, between which it carries the messages.
#[derive(Drop)]
pub struct Lift {
    alloc: Global,
    /// The moment that was told last.
    now: u64,
    cabin: Box<Core<Cabin>>,
    door: Box<Core<Door>>,
}

/// Starts a machine of the lift, at moment 0. One that does not start is refused.
fn running<M: Module>(
    alloc: Global,
    module: M,
    id: MachineId,
    arg: &M::Arg,
) -> Result<Box<Core<M>>, Refusal> {
    match started(alloc, module, id, arg, 0)? {
        Some(core) => Ok(core),
        None => Err(Refusal::NotPossible),
    }
}

impl Lift {
    /// A lift that rests, at moment 0.
    pub fn new(alloc: Global) -> Result<Lift, Refusal> {
        Ok(Lift {
            alloc,
            now: 0,
            cabin: running(alloc, Cabin, CABIN, &DOOR)?,
            door: running(alloc, Door, DOOR, &CABIN)?,
        })
    }

    /// Takes a line of the input, and answers what it brings about, in lines.
    pub fn take_line(&mut self, text: &str) -> Result<String, Refusal> {
        let line = read_line(self.alloc, text)?;
        let mut log = String::new(self.alloc);
        self.obey(&line, &mut log)?;
        Ok(log)
    }

    /// Does what a line brings about, at its moment.
    fn obey(&mut self, line: &Line<'_>, log: &mut String) -> Result<(), Refusal> {
        self.pass(line.moment.unwrap_or(self.now), log)?;
        self.step(line.text, step_of(&line.words), log)?;
        self.settle(log)
    }

    /// Lets time pass to a moment: each time-out that is due by then expires at its own moment, and is handled. A moment
    /// before the latest counts as the latest.
    fn pass(&mut self, moment: u64, log: &mut String) -> Result<(), Refusal> {
        let moment = self.now.max(moment);
        for _ in 0..LIMIT {
            let Some(due) = self.next_due().filter(|due| *due <= moment) else {
                break;
            };
            self.tick(due)?;
            self.settle(log)?;
        }
        self.now = moment;
        self.tick(moment)
    }

    /// The moment at which the next time-out is due, of either machine.
    fn next_due(&self) -> Option<u64> {
        match (due(&self.cabin), due(&self.door)) {
            (Some(cabin), Some(door)) => Some(cabin.min(door)),
            (Some(cabin), None) => Some(cabin),
            (None, door) => door,
        }
    }

    /// Tells both machines the moment.
    fn tick(&mut self, moment: u64) -> Result<(), Refusal> {
        tick(&mut self.cabin, moment)?;
        tick(&mut self.door, moment)
    }

    /// Lets the machines take turns until both are idle, and carries their messages.
    fn settle(&mut self, log: &mut String) -> Result<(), Refusal> {
        settle(&mut self.cabin, &mut self.door, self.alloc, log)
    }

    /// Does what a line brings about, and writes it down.
    fn step(&mut self, text: &str, step: Step, log: &mut String) -> Result<(), Refusal> {
        let now = self.now;
        if step != Step::Nothing {
            add(log, format!(in self.alloc; "{now} -- {text}\n"))?;
        }
        match step {
            Step::Nothing => Ok(()),
            Step::Call(content) => self.call(content, log),
            Step::Cabin(content) => {
                post(&mut self.cabin, Entry::Cast, content)?;
                Ok(())
            }
            Step::Door(content) => {
                post(&mut self.door, Entry::Info, content)?;
                Ok(())
            }
            Step::Stop => self.stop(log),
            Step::Unknown => self.note("no command", log),
        }
    }

    /// Calls the cabin, and writes down which call it is.
    fn call(&mut self, content: Content, log: &mut String) -> Result<(), Refusal> {
        let (alloc, now) = (self.alloc, self.now);
        match post(&mut self.cabin, Entry::Call, content)? {
            Some(number) => {
                add(log, format!(in alloc; "{now} call {number}\n"))?;
                Ok(())
            }
            None => self.note("not possible", log),
        }
    }

    /// Stops both machines.
    fn stop(&mut self, log: &mut String) -> Result<(), Refusal> {
        stop(&mut self.cabin, "cabin", self.alloc, log)?;
        stop(&mut self.door, "door", self.alloc, log)
    }

    /// Writes down what happens.
    fn note(&self, text: &str, log: &mut String) -> Result<(), Refusal> {
        let (alloc, now) = (self.alloc, self.now);
        add(log, format!(in alloc; "{now} {text}\n"))?;
        Ok(())
    }
}
