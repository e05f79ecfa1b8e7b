//! Casts and calls of a machine that threads may share, through a port, in one thread.
use crate::cell::Celled;
use crate::load::{Load, Work};
use st_core::{Collected, Core, Entry, Refusal};
use st_events::Token;
use st_lock::{Machine, Next, Port, Posted};
use std::alloc::Global;
use std::sync::{Arc, Wait};

/// A machine that threads share, one of its ports, and how many entries were made through it since it cut the journal.
#[derive(Drop)]
pub struct Shared<R> {
    rt: R,
    machine: Arc<Machine<Load>>,
    port: Port<Load>,
    entries: u32,
}

impl<R: Wait + Drop> Shared<R> {
    /// A machine with one port more.
    pub fn new(rt: R, machine: Arc<Machine<Load>>) -> Result<Shared<R>, Refusal> {
        let port = Machine::port(&machine, &rt)?;
        Ok(Shared {
            rt,
            machine,
            port,
            entries: 0,
        })
    }

    /// One entry more was made.
    fn count(&mut self) {
        self.entries = self.entries.saturating_add(1);
    }
}

impl<R: Wait + Drop> Celled for Shared<R> {
    fn hand_in(&mut self, entry: Entry, content: Work) -> Result<Option<Posted>, Refusal> {
        self.count();
        match self.port.post(&self.rt, entry, content) {
            Ok(posted) => Ok(Some(posted)),
            Err(refused) => Err(refused.refusal),
        }
    }

    fn serve(&mut self, token: Token) -> Result<(), Refusal> {
        let mut token = token;
        for _ in 0..u32::MAX {
            self.count();
            match self.machine.turn(&self.rt, token, 0) {
                Ok(Next::Again(next)) => token = next,
                Ok(Next::Rest) => return Ok(()),
                Err(refused) => return Err(refused.refusal),
            }
        }
        Ok(())
    }

    fn has_reply(&mut self, number: u64) -> Result<bool, Refusal> {
        self.count();
        let tag = self.machine.tag(number);
        match self.machine.collect(&self.rt, tag) {
            Ok(collected) => Ok(matches!(collected, Collected::Reply(_))),
            Err(refusal) => Err(refusal),
        }
    }

    fn cut_at(&mut self, most: u32) -> Result<(), Refusal> {
        if self.entries < most {
            return Ok(());
        }
        self.entries = 0;
        self.machine.cut_beyond(&self.rt, 0)?;
        Ok(())
    }
}

/// A machine that threads may share.
pub fn share(alloc: Global, core: Core<Load>) -> Result<Arc<Machine<Load>>, Refusal> {
    match Machine::new(alloc, core) {
        Ok((machine, _token)) => match Arc::new(alloc, machine).ok() {
            Some(machine) => Ok(machine),
            None => Err(Refusal::NoMemory),
        },
        Err(refused) => Err(refused.refusal),
    }
}
