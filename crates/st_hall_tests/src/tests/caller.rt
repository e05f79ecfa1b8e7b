//! Who calls a door.
use super::doors::{Doors, first_port, port};
use super::host::Host;
use super::tray::Tray;
use st_client::{Called, Port, call};
use st_door::{Door, DoorContent};
use std::process::Abort;
use std::sync::{Arc, Wait};

/// A port of a door, and the tray on which the door's token is put, which callers share.
#[derive(Drop)]
pub struct Caller {
    pub port: Port<Door>,
    pub tray: Arc<Tray>,
}

/// The first who calls the only door of a registry.
pub fn first_caller(
    rt: &Host<impl Abort + AllocGlobal>,
    threads: &impl Wait,
    doors: &mut Doors,
) -> Box<Caller> {
    let tray = Arc::new(rt.alloc(), Tray::new(rt.alloc(), true)).expect(rt, "a tray");
    let port = first_port(rt, threads, doors, &[None]);
    rt.boxed(rt.alloc(), Caller { port, tray })
}

impl Caller {
    /// Another who calls the same door.
    pub fn another(&self, rt: &Host<impl Abort>, threads: &impl Wait) -> Caller {
        Caller {
            port: port(rt, threads, self.port.machine()),
            tray: Arc::try_clone(&self.tray).expect(rt, "an owner"),
        }
    }

    /// What a call for the length of the code came to: the length that was replied, or the reason for which the door ended.
    pub fn length(mut self, threads: &impl Wait) -> Result<usize, Option<u32>> {
        let content = DoorContent::CodeLength;
        let called = call(threads, &mut self.port, &*self.tray, content);
        drop(self);
        let came = match &called {
            Ok(Called::Reply(DoorContent::Length(length))) => Ok(*length),
            Ok(Called::Stopped(reason)) => Err(Some(*reason)),
            _ => Err(None),
        };
        drop(called);
        came
    }
}
