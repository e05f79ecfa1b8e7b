//! How halls and their machines begin.
use super::host::{Host, got};
use super::mark::Mark;
use super::plain::Plain;
use st_hall::{Hall, Machine, MachineId, Port, Registry, Started};
use std::process::Abort;
use std::sync::{Arc, Wait};

/// The id of the first machine that is started in a place of its own.
pub const FIRST: MachineId = MachineId { slot: 0, serial: 1 };

/// The id of the second one.
pub const SECOND: MachineId = MachineId { slot: 1, serial: 2 };

/// The id of the third one.
pub const THIRD: MachineId = MachineId { slot: 2, serial: 3 };

/// The id of this place and serial.
pub fn id(slot: usize, serial: u64) -> MachineId {
    MachineId { slot, serial }
}

/// A mark. Where there is no memory, it is made again.
pub fn mark(rt: &Host<impl Abort + AllocGlobal>, is_patient: bool) -> Arc<Mark> {
    match Mark::new(rt.alloc(), is_patient) {
        Ok(mark) => mark,
        Err(_) => {
            rt.retry();
            Mark::new(rt.alloc(), is_patient).expect(rt, "one allocation alone is refused")
        }
    }
}

/// A hall without machines, which are to keep a journal, or none.
pub fn hall<R: Wait + Drop>(
    rt: &Host<impl Abort + AllocGlobal>,
    threads: R,
    keeps: bool,
) -> Hall<Plain, R> {
    let registry = if keeps {
        Registry::new(rt.alloc())
    } else {
        Registry::unjournaled(rt.alloc())
    };
    Hall::new(threads, registry)
}

/// Starts so many machines in a hall without machines, from the slot 0 on, each with a serial one above its slot. They find
/// memory.
pub fn fill<R: Wait + Drop>(
    rt: &impl Abort,
    hall: &Hall<Plain, R>,
    mark: &Arc<Mark>,
    count: usize,
) {
    for _ in 0..count {
        let plain = Plain::new(mark).expect(rt, "an owner");
        let started = got(rt, "it is started", hall.start(None, plain, &(), 0));
        running(rt, started);
    }
}

/// The id of a machine that was started, and has no work.
pub fn running(rt: &impl Abort, started: Started) -> MachineId {
    match started {
        Started::Running { id, wake: None } => id,
        _ => panic!(rt; "it runs, and has no work"),
    }
}

/// Opens a port of the machine of an id, and finds memory.
pub fn opened<R: Wait + Drop>(
    rt: &impl Abort,
    threads: &impl Wait,
    hall: &Hall<Plain, R>,
    id: MachineId,
) -> Port<Plain> {
    let machine = hall.machine(id).expect(rt, "it is there");
    let port = Machine::port(&machine, threads).expect(rt, "a port");
    drop(machine);
    port
}

/// A port of each of so many machines of a hall that was filled.
pub fn ports<R: Wait + Drop>(
    rt: &Host<impl Abort + AllocGlobal>,
    threads: &impl Wait,
    hall: &Hall<Plain, R>,
    count: usize,
) -> Vec<Port<Plain>> {
    let mut ports = Vec::new(rt.alloc());
    for slot in 0..count {
        let serial = (slot as u64).saturating_add(1);
        let port = opened(rt, threads, hall, id(slot, serial));
        ports.push(port).expect(rt, "a place");
    }
    ports
}
