//! Doors in a registry, and how they start.
use super::again::is_made_again;
use super::begun::{FIRST, id, running};
use super::host::{Host, got, holds};
use st_client::{Machine, MachineId, Port, Refusal, Refused};
use st_door::{Digits, Door};
use st_registry::{Registry, Started};
use std::alloc::Global;
use std::process::Abort;
use std::sync::{Arc, Wait};

/// A registry of doors, the code with which each is started, and the door that was stopped last, which somebody keeps.
#[derive(Drop)]
pub struct Doors {
    pub registry: Registry<Door>,
    code: Digits,
    pub stopped: Option<Arc<Machine<Door>>>,
}

/// What can be read of a registry with no memory: how many machines there are, and whose the names front, back and side
/// are.
type Seen = (usize, [Result<MachineId, Refusal>; 3]);

/// A code of these digits. Where there is no memory, it is made again.
fn code(rt: &Host<impl Abort>, alloc: Global, digits: &[u8]) -> Digits {
    match Digits::copied(alloc, digits) {
        Ok(code) => code,
        Err(_) => {
            rt.retry();
            Digits::copied(alloc, digits).expect(rt, "one allocation alone is refused")
        }
    }
}

/// A registry with no door, for doors of a code of these digits.
pub fn no_door(rt: &Host<impl Abort>, alloc: Global, digits: &[u8]) -> Box<Doors> {
    let doors = Doors {
        registry: Registry::new(alloc),
        code: code(rt, alloc, digits),
        stopped: None,
    };
    rt.boxed(alloc, doors)
}

impl Doors {
    /// The id of a name.
    pub fn whereis(&self, name: &str) -> Result<MachineId, Refusal> {
        self.registry.whereis(name)
    }

    /// What can be read of the registry with no memory.
    fn see(&self) -> Seen {
        let front = self.whereis("front");
        let back = self.whereis("back");
        let side = self.whereis("side");
        (self.registry.len(), [front, back, side])
    }

    /// Starts a door under a name, or under none, at the moment 0.
    fn start(
        &mut self,
        threads: &impl Wait,
        name: Option<&str>,
        door: Door,
    ) -> Result<Started, Refused<Door>> {
        self.registry.start(threads, name, door, &self.code, 0)
    }
}

/// Starts a door under a name, or under none, and answers its id: it runs, and has no work. A refusal changes nothing. Where
/// there is no memory, it is started again with the module that came back.
pub fn start(
    rt: &Host<impl Abort>,
    threads: &impl Wait,
    doors: &mut Doors,
    name: Option<&str>,
) -> Result<MachineId, Refusal> {
    let before = doors.see();
    let refused = match doors.start(threads, name, Door) {
        Ok(started) => return Ok(running(rt, started)),
        Err(refused) => refused,
    };
    holds(rt, "a refusal changes nothing", doors.see() == before);
    if refused.refusal != Refusal::NoMemory {
        return Err(refused.refusal);
    }
    rt.retry();
    match doors.start(threads, name, refused.value) {
        Ok(started) => Ok(running(rt, started)),
        Err(refused) => Err(refused.refusal),
    }
}

/// Opens a port. Where there is no memory, it is opened again.
pub fn port(
    rt: &Host<impl Abort>,
    threads: &impl Wait,
    machine: &Arc<Machine<Door>>,
) -> Port<Door> {
    match Machine::port(machine, threads) {
        Ok(port) => port,
        Err(refusal) => {
            is_made_again(rt, refusal);
            Machine::port(machine, threads).expect(rt, "one allocation alone is refused")
        }
    }
}

/// A port of the door of an id.
pub fn port_of(
    rt: &Host<impl Abort>,
    threads: &impl Wait,
    doors: &Doors,
    id: MachineId,
) -> Port<Door> {
    let machine = got(rt, "the machine is there", doors.registry.machine(id));
    let port = port(rt, threads, &machine);
    drop(machine);
    port
}

/// Starts the first doors of a registry, each under a name or under none, and answers a port of the first one. Their ids
/// have the slots from 0 on, and serials one above the slots.
pub fn first_port(
    rt: &Host<impl Abort>,
    threads: &impl Wait,
    doors: &mut Doors,
    names: &[Option<&str>],
) -> Port<Door> {
    for (slot, name) in names.iter().enumerate() {
        let its = id(slot, (slot as u64).saturating_add(1));
        let started = start(rt, threads, doors, *name);
        holds(rt, "a door is started", started == Ok(its));
    }
    port_of(rt, threads, doors, FIRST)
}
