//! A machine that runs a table.
use super::did::{Did, shown};
use super::host::{Host, got, holds, is_number, same};
use st_core::{Core, Entry, MachineId, PlainList, Report, Start, Turned};
use st_table::{Interpreter, Place, Signal, Table, Value};
use std::alloc::Global;
use std::process::Abort;
use std::sync::Arc;

/// The machine's id.
pub const ID: MachineId = MachineId { slot: 3, serial: 7 };

/// A signal.
pub fn signal(symbol: u32, argument: Value) -> Signal {
    Signal { symbol, argument }
}

/// A module of a table. Where there is no memory for it, it is made again.
pub fn module(rt: &Host<impl Abort>, alloc: Global, table: Table) -> Interpreter {
    match Arc::new(alloc, table) {
        Ok(table) => Interpreter { table },
        Err(failed) => {
            rt.retry();
            let table = Arc::new(alloc, failed.value);
            Interpreter {
                table: got(rt, "one allocation alone is refused", table),
            }
        }
    }
}

/// A start that is made again.
fn started_again(
    rt: &Host<impl Abort>,
    alloc: Global,
    module: Interpreter,
    given: &PlainList<Value>,
) -> Start<Interpreter> {
    rt.retry();
    let start = Core::start(alloc, module, ID, given, 0);
    got(rt, "one allocation alone is refused", start)
}

/// A start. Where there is no memory for it, it is made again.
pub fn started(
    rt: &Host<impl Abort>,
    alloc: Global,
    module: Interpreter,
    given: &PlainList<Value>,
) -> Start<Interpreter> {
    match Core::start(alloc, module, ID, given, 0) {
        Ok(start) => start,
        Err(refused) => started_again(rt, alloc, refused.value, given),
    }
}

/// A machine in a box. Where there is no memory for it, it is made again.
fn boxed(rt: &Host<impl Abort>, alloc: Global, core: Core<Interpreter>) -> Box<Core<Interpreter>> {
    match Box::new(alloc, core) {
        Ok(core) => core,
        Err(failed) => {
            rt.retry();
            let core = Box::new(alloc, failed.value);
            got(rt, "one allocation alone is refused", core)
        }
    }
}

/// A machine that runs a table. A call that finds no memory is made again.
#[derive(Drop)]
pub struct Machine {
    pub core: Box<Core<Interpreter>>,
}

/// What a turn did.
fn reported(rt: &Host<impl Abort>, turned: Turned<Place>) -> Did {
    match turned {
        Turned::Reported(report) => shown(&report),
        Turned::Idle => panic!(rt; "there is an event"),
    }
}

/// A machine that has started, and what its start reported.
fn running(rt: &Host<impl Abort>, start: Start<Interpreter>) -> (Core<Interpreter>, Report<Place>) {
    match start {
        Start::Running(core, report) => (core, report),
        Start::Ignored => panic!(rt; "the start is ignored"),
        Start::Stopped(_) => panic!(rt; "the start stops"),
    }
}

impl Machine {
    /// A machine that runs this module from moment 0, and whose start does this.
    pub fn begun(
        rt: &Host<impl Abort>,
        alloc: Global,
        module: Interpreter,
        given: &PlainList<Value>,
        wanted: &Did,
    ) -> Machine {
        let (core, report) = running(rt, started(rt, alloc, module, given));
        same(rt, "a start", &shown(&report), wanted);
        Machine {
            core: boxed(rt, alloc, core),
        }
    }

    /// Posts an event, which gets this number.
    pub fn post(&mut self, rt: &Host<impl Abort>, entry: Entry, signal: Signal, wanted: u64) {
        let number = match self.core.post(entry, signal) {
            Ok(number) => number,
            Err(refused) => {
                rt.retry();
                let number = self.core.post(entry, refused.value);
                got(rt, "one allocation alone is refused", number)
            }
        };
        is_number(rt, "an event's number", number, wanted);
    }

    /// Makes a turn, which does this.
    pub fn turn(&mut self, rt: &Host<impl Abort>, now: u64, wanted: &Did) {
        let turned = match self.core.turn(now) {
            Ok(turned) => turned,
            Err(_) => {
                rt.retry();
                got(rt, "one allocation alone is refused", self.core.turn(now))
            }
        };
        same(rt, "a turn", &reported(rt, turned), wanted);
    }

    /// Lets time pass to a moment at which so many time-outs expire.
    pub fn tick(&mut self, rt: &Host<impl Abort>, now: u64, wanted: u64) {
        let expired = match self.core.tick_to(now) {
            Ok(expired) => expired,
            Err(_) => {
                rt.retry();
                got(
                    rt,
                    "one allocation alone is refused",
                    self.core.tick_to(now),
                )
            }
        };
        is_number(rt, "how many expired", expired, wanted);
    }

    /// Looks at a register.
    pub fn register(&self, rt: &Host<impl Abort>, index: usize, wanted: &Value) {
        let found = self.core.data().get(index);
        holds(rt, "a register", found == Some(wanted));
    }
}
