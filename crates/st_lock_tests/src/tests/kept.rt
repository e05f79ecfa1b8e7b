//! A cell as a test sees it: how it begins, what it is asked, and what can be read of it.
use super::asked::{Answered, Asked, Given, copied, looked};
use super::inside::Inside;
use super::plain::Plain;
use super::played::Played;
use super::reading::Reading;
use super::seen::Seen;
use super::twin::Twin;
use st_core::{MachineState, Message, Refused};
use st_events::Token;
use st_lock::{Cell, Core, JournalEntry};
use std::alloc::Global;

/// A cell.
pub trait Kept: Played {
    /// Its machine.
    type Machine: Twin;

    /// A cell of a machine, and its token if it has work. Where there is no memory, the machine comes back.
    fn begin(
        alloc: Global,
        machine: Self::Machine,
    ) -> Result<(Self, Option<Token>), Refused<Self::Machine>>;

    /// The journal itself.
    fn read_entries(&self) -> &[JournalEntry<u32, u32>];

    /// The base.
    fn read_base(&self) -> &MachineState<u32, u32, u32>;
}

impl Kept for Cell<Plain> {
    type Machine = Core<Plain>;

    fn begin(
        alloc: Global,
        machine: Core<Plain>,
    ) -> Result<(Cell<Plain>, Option<Token>), Refused<Core<Plain>>> {
        Cell::new(alloc, machine)
    }

    fn read_entries(&self) -> &[JournalEntry<u32, u32>] {
        self.entries()
    }

    fn read_base(&self) -> &MachineState<u32, u32, u32> {
        self.base()
    }
}

/// Makes a call through a port.
fn through(cell: &mut Cell<Plain>, port: u64, asked: Asked) -> Given {
    if !cell.is_open(port) {
        return Given::Answer(Answered::NotOpen);
    }
    match asked {
        Asked::Post(_, entry, content) => {
            Given::Answer(Answered::Posted(cell.post(port, entry, content)))
        }
        _ => looked(cell.look(port)),
    }
}

/// Makes a call that is about a port, another machine or the journal.
fn ask_more(cell: &mut Cell<Plain>, asked: Asked) -> Given {
    match asked {
        Asked::Post(port, _, _) => through(cell, port, asked),
        Asked::Look(port) => through(cell, port, asked),
        Asked::Deliver(sender, number, content) => {
            let target = cell.core().id();
            Given::Answer(Answered::Delivered(cell.deliver(Message {
                sender,
                number,
                target,
                content,
            })))
        }
        Asked::Cut => Given::Answer(Answered::Cut(cell.cut())),
        Asked::Journal(label) => copied(cell.journal(label)),
        Asked::HandOut(label) => copied(cell.take_journal(label)),
        _ => Given::Answer(Answered::NotOpen),
    }
}

/// The number of a message.
fn number_of(message: &Message<u32>) -> u64 {
    message.number
}

impl Played for Cell<Plain> {
    fn ask(&mut self, asked: Asked) -> Given {
        match asked {
            Asked::Turn(token, now) => Given::Answer(Answered::Turned(self.turn(token, now))),
            Asked::TakeOut(token) => Given::Answer(Answered::TakenOut(self.take_out(token))),
            Asked::Tick(now) => Given::Answer(Answered::Ticked(self.tick(now))),
            Asked::Collect(tag) => Given::Answer(Answered::Collected(self.collect(tag))),
            Asked::Reply(tag, content) => {
                Given::Answer(Answered::Replied(self.reply(tag, content)))
            }
            Asked::Stop(reason) => Given::Answer(Answered::Stopped(self.stop(reason))),
            Asked::Port => Given::Answer(Answered::Port(self.port())),
            _ => ask_more(self, asked),
        }
    }

    fn see(&self) -> Seen {
        let core = self.core();
        Seen {
            reading: Reading {
                state: core.state(),
                waiting: core.waiting(),
                due: core.next_due(),
                ended: core.ended(),
                is_ready: core.is_ready(),
            },
            ports: self.ports(),
            removable: self.removable(),
            inside: Some(Inside {
                held: *core.data(),
                message: core.first_message().map(number_of),
                latest: core.latest(),
                token: self.token(),
                count: self.count(),
            }),
        }
    }
}
