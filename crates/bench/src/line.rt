//! What can be measured.
use crate::cell::{Celled, call_in_cell, cast_in_cell, in_cell};
use crate::drive::{
    call_each, cycle, expire_each, finish_backwards, finish_in_order, post_all_and_turn,
    post_and_turn, post_and_turn_each, started, take_out_each, turn_each,
};
use crate::due::take_and_note_each;
use crate::latch::{Latch, Press};
use crate::load::{Load, Work};
use crate::pool::play;
use crate::queue::pass;
use crate::robbed_queue::RobbedQueue;
use crate::rounds::rounds;
use crate::services::{call_to_service, cast_to_service, insert_in_service};
use crate::shared::{Shared, share};
use crate::shared_queue::SharedQueue;
use crate::turns::{ticked_turns, turns};
use crate::watch::watch_each;
use crate::workers::{insert_by_workers, pass_by_workers};
use st_core::{Core, MachineId, Refusal};
use st_lock::Cell;
use st_pool::Runtime;
use st_runq::Lane;
use std::alloc::Global;
use std::random::RandomSource;
use std::rt::Clock;
use std::sync::Wait;

/// The identity of a measured machine.
const ID: MachineId = MachineId { slot: 0, serial: 1 };

/// One line of the bench.
#[derive(Clone, Copy)]
pub enum Line {
    /// Casts that keep the state.
    Casts,
    /// The same, while so many time-outs run.
    CastsBeside,
    /// All casts are posted first.
    PostedFirst,
    /// Buttons of a door that do not open it: each sets the event time-out anew.
    WrongButtons,
    /// A door: a button, one that opens it, one that is postponed, and a lock.
    DoorCycle,
    /// Calls, whose replies are collected.
    Calls,
    /// Casts to each of so many machines in turn.
    Machines,
    /// Events that are postponed, and so many state changes after which they are retried.
    Postponed,
    /// Events that are postponed and then retried after one state change: those that finish in the order of their
    /// numbers are counted.
    Retried,
    /// Expiries, one after another, while so many other time-outs run.
    Expiries,
    /// Time-outs that are set the last one due first, of which one moment brings one and another all others: those that
    /// come in the order of their moments are counted.
    DueInOrder,
    /// A timer is set and stopped, while so many other time-outs run.
    SetAndCancel,
    /// A time-out is updated, while so many run, of which it is one.
    Updates,
    /// Casts that send a message each, which is taken out: these messages are counted.
    Sends,
    /// Timers that are set in one list.
    Settings,
    /// Events that are inserted in one list.
    Inserts,
    /// Events each of which inserts so many others in one list.
    InsertLists,
    /// Tokens that a worker puts into its own run queue and takes from it, while so many others wait there: those that
    /// come in order are counted.
    OwnQueue,
    /// The same, where another worker steals them.
    Steals,
    /// The same with the shared run queue.
    SharedQueue,
    /// The first of so many machines is taken when it is due, and noted again, to come last: those that are taken in time
    /// are counted.
    Due,
    /// Casts to each of so many machines of a pool in turn, each in four steps: post, give, take and turn.
    Pool,
    /// Casts that keep the state, to a machine in a cell whose journal is cut where it has so many entries.
    CellCasts,
    /// The same with calls, whose replies are collected.
    CellCalls,
    /// Casts that keep the state, through a port of a shared machine, whose journal is cut where it has so many entries.
    PortCasts,
    /// The same with calls, whose replies are collected.
    PortCalls,
    /// Rounds of a worker on whose own run queue so many tokens stand, and whose turns do nothing: those that serve a
    /// token are counted.
    Rounds,
    /// A ticker looks when a machine is due that has no time-out, as it does behind each turn.
    Watch,
    /// Turns that a worker makes of a machine with so many running time-outs, which change none, behind a gate at which nobody
    /// waits.
    Turns,
    /// The same behind a ticker.
    TickedTurns,
    /// Events that so many machines insert and handle, served by a pool of one worker.
    OneWorker,
    /// The same by four workers.
    FourWorkers,
    /// A message that is handed round a ring of so many machines, so often, served by a pool of one worker: the entries of
    /// the journals are counted.
    RingByOne,
    /// The same by four workers.
    RingByFour,
    /// Casts that keep the state, to a machine of a service with one worker, whose journal has so many entries, or which keeps none
    /// where that is 0, and a call.
    ServiceCasts,
    /// Calls of such a machine.
    ServiceCalls,
    /// Events that so many machines of a service with one worker insert and handle, and a call of each.
    ServiceOfOne,
    /// The same by four workers.
    ServiceOfFour,
}

/// Each line by its name.
pub static LINES: [(&str, Line); 38] = [
    ("casts", Line::Casts),
    ("casts-beside", Line::CastsBeside),
    ("posted-first", Line::PostedFirst),
    ("wrong-buttons", Line::WrongButtons),
    ("door-cycle", Line::DoorCycle),
    ("calls", Line::Calls),
    ("machines", Line::Machines),
    ("postponed", Line::Postponed),
    ("retried", Line::Retried),
    ("expiries", Line::Expiries),
    ("due-in-order", Line::DueInOrder),
    ("set-and-cancel", Line::SetAndCancel),
    ("updates", Line::Updates),
    ("sends", Line::Sends),
    ("settings", Line::Settings),
    ("inserts", Line::Inserts),
    ("insert-lists", Line::InsertLists),
    ("own-queue", Line::OwnQueue),
    ("steals", Line::Steals),
    ("shared-queue", Line::SharedQueue),
    ("due", Line::Due),
    ("pool", Line::Pool),
    ("cell-casts", Line::CellCasts),
    ("cell-calls", Line::CellCalls),
    ("port-casts", Line::PortCasts),
    ("port-calls", Line::PortCalls),
    ("rounds", Line::Rounds),
    ("watch", Line::Watch),
    ("turns", Line::Turns),
    ("ticked-turns", Line::TickedTurns),
    ("pool-1", Line::OneWorker),
    ("pool-4", Line::FourWorkers),
    ("ring-1", Line::RingByOne),
    ("ring-4", Line::RingByFour),
    ("service-casts", Line::ServiceCasts),
    ("service-calls", Line::ServiceCalls),
    ("service-1", Line::ServiceOfOne),
    ("service-4", Line::ServiceOfFour),
];

impl Line {
    /// Does the line so many times, and answers how many events were handled, replies collected, machines ended, tokens
    /// taken, rounds made that served one, or looks made.
    pub fn done<R: Runtime + Clock + RandomSource>(
        self,
        rt: R,
        alloc: Global,
        count: u32,
        more: u32,
    ) -> Result<u64, Refusal> {
        match self {
            Line::OwnQueue | Line::Steals | Line::SharedQueue | Line::Due => {
                self.done_on_queue(&rt, alloc, count, more)
            }
            Line::PortCasts | Line::PortCalls => self.done_by_port(rt, alloc, count, more),
            Line::Rounds => rounds(&rt, alloc, count, more),
            Line::Watch => watch_each(rt, alloc, count),
            Line::Turns => turns(rt, alloc, count, more),
            Line::TickedTurns => ticked_turns(rt, alloc, count, more),
            Line::OneWorker | Line::FourWorkers => self.done_by_workers(rt, alloc, count, more),
            Line::RingByOne | Line::RingByFour => self.done_round(rt, alloc, count, more),
            Line::ServiceCasts | Line::ServiceCalls | Line::ServiceOfOne | Line::ServiceOfFour => {
                self.done_by_service(rt, alloc, count, more)
            }
            _ => self.done_by_one(alloc, count, more),
        }
    }

    /// Does a line of a service.
    fn done_by_service<R: Runtime + Clock + RandomSource>(
        self,
        rt: R,
        alloc: Global,
        count: u32,
        more: u32,
    ) -> Result<u64, Refusal> {
        match self {
            Line::ServiceCasts => cast_to_service(rt, alloc, count, more),
            Line::ServiceCalls => call_to_service(rt, alloc, count, more),
            Line::ServiceOfOne => insert_in_service(rt, alloc, 1, count, more),
            _ => insert_in_service(rt, alloc, 4, count, more),
        }
    }

    /// Does a line of a queue of tokens or of machines.
    fn done_on_queue<R: Wait>(
        self,
        rt: &R,
        alloc: Global,
        count: u32,
        more: u32,
    ) -> Result<u64, Refusal> {
        match self {
            Line::OwnQueue => pass(&mut Lane::new(alloc)?, count, more),
            Line::Steals => pass(&mut RobbedQueue::new(alloc)?, count, more),
            Line::Due => take_and_note_each(alloc, count, more),
            _ => pass(&mut SharedQueue::new(rt, alloc)?, count, more),
        }
    }

    /// Does a line of one thread that needs no lock.
    fn done_by_one(self, alloc: Global, count: u32, more: u32) -> Result<u64, Refusal> {
        match self {
            Line::WrongButtons | Line::DoorCycle => self.done_by_latch(alloc, count),
            Line::Machines => many_machines(alloc, count, more),
            Line::Pool => play(alloc, count, more),
            Line::CellCasts | Line::CellCalls => self.done_in_cell(alloc, count, more),
            _ => self.done_by_load(alloc, count, more),
        }
    }

    /// Does a line of the door.
    fn done_by_latch(self, alloc: Global, count: u32) -> Result<u64, Refusal> {
        match started(alloc, Latch, ID, &0)? {
            Some(mut door) => self.done_at_door(&mut door, count),
            None => Ok(0),
        }
    }

    /// Does a line at a door that is locked.
    fn done_at_door(self, door: &mut Core<Latch>, count: u32) -> Result<u64, Refusal> {
        if matches!(self, Line::WrongButtons) {
            return post_and_turn_each(door, Press::Button(9), count);
        }
        let presses = [
            Press::Button(1),
            Press::Button(2),
            Press::Button(9),
            Press::Lock,
        ];
        cycle(door, &presses, count)
    }

    /// Does a line of a machine in a cell.
    fn done_in_cell(self, alloc: Global, count: u32, more: u32) -> Result<u64, Refusal> {
        match started_in_cell(alloc)? {
            Some(mut cell) => self.done_over(&mut *cell, count, more),
            None => Ok(0),
        }
    }

    /// Does a line over a cell.
    fn done_over<T: Celled>(self, cell: &mut T, count: u32, more: u32) -> Result<u64, Refusal> {
        match self {
            Line::CellCasts => cast_in_cell(cell, count, more),
            _ => call_in_cell(cell, count, more),
        }
    }

    /// Does a line of a machine that threads may share, in one thread.
    fn done_by_port<R: Wait + Drop>(
        self,
        rt: R,
        alloc: Global,
        count: u32,
        more: u32,
    ) -> Result<u64, Refusal> {
        let Some(load) = started(alloc, Load, ID, &0)? else {
            return Ok(0);
        };
        let mut machine = Shared::new(rt, share(alloc, load)?)?;
        match self {
            Line::PortCasts => cast_in_cell(&mut machine, count, more),
            _ => call_in_cell(&mut machine, count, more),
        }
    }

    /// Does a line of machines that workers serve.
    fn done_by_workers<R: Runtime>(
        self,
        rt: R,
        alloc: Global,
        count: u32,
        more: u32,
    ) -> Result<u64, Refusal> {
        match self {
            Line::OneWorker => insert_by_workers(rt, alloc, 1, count, more),
            _ => insert_by_workers(rt, alloc, 4, count, more),
        }
    }

    /// Does a line of a ring of machines that workers serve.
    fn done_round<R: Runtime>(
        self,
        rt: R,
        alloc: Global,
        count: u32,
        more: u32,
    ) -> Result<u64, Refusal> {
        match self {
            Line::RingByOne => pass_by_workers(rt, alloc, 1, count, more),
            _ => pass_by_workers(rt, alloc, 4, count, more),
        }
    }

    /// Does a line of one machine.
    fn done_by_load(self, alloc: Global, count: u32, more: u32) -> Result<u64, Refusal> {
        let Some(mut load) = started(alloc, Load, ID, &0)? else {
            return Ok(0);
        };
        self.done_with(&mut load, count, more)
    }

    /// Does a line with a machine that has just started.
    fn done_with(self, core: &mut Core<Load>, count: u32, more: u32) -> Result<u64, Refusal> {
        match self {
            Line::CastsBeside | Line::Expiries | Line::SetAndCancel | Line::Updates => {
                post_and_turn(core, Work::SetMany(more), 0)?;
                self.done_beside(core, count, more)
            }
            Line::Postponed | Line::Retried | Line::DueInOrder => {
                self.done_after(core, count, more)
            }
            Line::InsertLists => cycle(core, &[Work::InsertMany(more)], count),
            _ => self.done_alone(core, count),
        }
    }

    /// Does a line of a machine at which so many time-outs run.
    fn done_beside(self, core: &mut Core<Load>, count: u32, more: u32) -> Result<u64, Refusal> {
        match self {
            Line::Expiries => expire_each(core, Work::Set(more, 1), count),
            Line::SetAndCancel => {
                cycle(core, &[Work::Set(more, 1_000), Work::Cancel(more)], count)
            }
            Line::Updates => cycle(core, &[Work::Update(more / 2)], count),
            _ => post_and_turn_each(core, Work::Keep, count),
        }
    }

    /// Does a line in which what comes first is handled later.
    fn done_after(self, core: &mut Core<Load>, count: u32, more: u32) -> Result<u64, Refusal> {
        match self {
            Line::Postponed => postponed(core, count, more),
            Line::Retried => retried(core, count),
            _ => due_in_order(core, count),
        }
    }

    /// Does a line of a machine at which nothing else waits or runs.
    fn done_alone(self, core: &mut Core<Load>, count: u32) -> Result<u64, Refusal> {
        match self {
            Line::PostedFirst => post_all_and_turn(core, Work::Keep, count),
            Line::Calls => call_each(core, Work::Answer, count),
            Line::Sends => take_out_each(core, Work::Send(2), count),
            Line::Settings => post_and_turn(core, Work::SetMany(count), 0),
            Line::Inserts => cycle(core, &[Work::InsertMany(count)], 1),
            _ => post_and_turn_each(core, Work::Keep, count),
        }
    }
}

/// Postpones events, and changes the state until all are handled.
fn postponed(core: &mut Core<Load>, count: u32, changes: u32) -> Result<u64, Refusal> {
    let put_off = post_and_turn_each(core, Work::PutOffBefore(changes), count)?;
    let retried = cycle(core, &[Work::Next], changes)?;
    Ok(put_off.saturating_add(retried))
}

/// Postpones events, changes the state once, and counts those that finish in the order of their numbers.
fn retried(core: &mut Core<Load>, count: u32) -> Result<u64, Refusal> {
    post_and_turn_each(core, Work::PutOffBefore(1), count)?;
    post_and_turn(core, Work::Next, 0)?;
    finish_in_order(core, count)
}

/// Sets a time-out for each moment up to so many, that of the last one first. The first moment brings one, and then
/// come all others; those that come in the order of their moments are counted.
fn due_in_order(core: &mut Core<Load>, count: u32) -> Result<u64, Refusal> {
    for name in 0..count {
        post_and_turn(core, Work::Set(name, count - name), 0)?;
    }
    if core.tick_to(1)? != 1 {
        return Ok(0);
    }
    core.tick_to(count as u64)?;
    finish_backwards(core, count)
}

/// Starts so many machines, and posts to each in turn.
fn many_machines(alloc: Global, count: u32, many: u32) -> Result<u64, Refusal> {
    let mut machines = Vec::new(alloc);
    for slot in 0..many {
        let id = MachineId {
            slot: slot as usize,
            serial: 1,
        };
        if let Some(core) = started(alloc, Load, id, &0)? {
            if machines.push(core).is_err() {
                return Err(Refusal::NoMemory);
            }
        }
    }
    let mut turns = 0u64;
    for _ in 0..count {
        turns = turns.saturating_add(turn_each(machines.as_mut_slice(), Work::Keep)?);
    }
    Ok(turns)
}

/// A machine that has just started, in a cell.
fn started_in_cell(alloc: Global) -> Result<Option<Box<Cell<Load>>>, Refusal> {
    match started(alloc, Load, ID, &0)? {
        Some(load) => Ok(Some(in_cell(alloc, load)?)),
        None => Ok(None),
    }
}
