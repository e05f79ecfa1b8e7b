//! A machine that threads share, with its ports, as a test sees it.
ghost use Rattle.std.specs.Prelude.{◌≡◌, IfOk};
ghost use Rattle.st_lock.specs.Machines.{id_for};

use super::asked::{Answered, Asked, Given, copied, looked, served};
use super::host::Host;
use super::plain::Plain;
use super::played::Played;
use super::reading::Reading;
use super::row::Row;
use super::seen::Seen;
use super::sharing::{Sharing, plays_lists};
use super::way::Way;
use st_lock::{Core, Machine, MachineId, Message, Port, Refusal, Refused, Token, VacantMachine};
use std::alloc::Global;
use std::process::Abort;
use std::sync::{Arc, Wait};

/// A machine with its ports, and what its calls wait on.
#[derive(Drop)]
struct Shared<W> {
    threads: W,
    machine: Arc<Machine<Plain>>,
    ports: Vec<Port<Plain>>,
}

/// A vacant machine that will keep its journal, or keep none.
fn vacate(alloc: Global, id: MachineId, keeps: bool) -> Result<VacantMachine<Plain>, Refusal>
    ensures { IfOk result (λ vacant. id_for vacant ≡ id) }
{
    if keeps {
        VacantMachine::new(alloc, id)
    } else {
        VacantMachine::unjournaled(alloc, id)
    }
}

impl<W: Wait + Copy + Drop> Sharing for Shared<W> {
    type Machine = Core<Plain>;

    type Locked = Machine<Plain>;

    type Threads = W;

    fn lock(
        alloc: Global,
        machine: Core<Plain>,
        keeps: bool,
    ) -> Result<(Machine<Plain>, Option<Token>), Refused<Core<Plain>>> {
        if keeps {
            Machine::new(alloc, machine)
        } else {
            Machine::unjournaled(alloc, machine)
        }
    }

    fn own(
        alloc: Global,
        threads: W,
        locked: Machine<Plain>,
    ) -> Result<Shared<W>, Refused<Machine<Plain>>> {
        match Arc::new(alloc, locked) {
            Ok(machine) => Ok(Shared {
                threads,
                machine,
                ports: Vec::new(alloc),
            }),
            Err(failed) => Err(Refused::new(Refusal::NoMemory, failed.value)),
        }
    }

    fn fill(
        alloc: Global,
        threads: W,
        machine: Core<Plain>,
        keeps: bool,
    ) -> Result<(Shared<W>, MachineId, Option<Token>), Refused<Core<Plain>>> {
        match vacate(alloc, machine.id(), keeps) {
            Ok(vacant) => match vacant.fill(alloc, &threads, machine) {
                Ok((machine, token)) => {
                    let id = machine.id();
                    let ports = Vec::new(alloc);
                    let shared = Shared {
                        threads,
                        machine,
                        ports,
                    };
                    Ok((shared, id, token))
                }
                Err(refused) => Err(refused),
            },
            Err(refusal) => Err(Refused::new(refusal, machine)),
        }
    }
}

impl<W: Wait + Copy + Drop> Shared<W> {
    /// Opens the next port.
    fn open(&mut self) -> Result<u64, Refusal> {
        self.ports.reserve(1)?;
        let port = Machine::port(&self.machine, &self.threads)?;
        self.ports.push_reserved(port);
        Ok(self.ports.len() as u64)
    }

    /// Makes a call through a port.
    fn through(&mut self, port: u64, asked: Asked) -> Given {
        let threads = self.threads;
        let Some(port) = self.ports.get_mut(port.saturating_sub(1) as usize) else {
            return Given::Answer(Answered::NotOpen);
        };
        match asked {
            Asked::Post(_, entry, content) => {
                Given::Answer(Answered::Posted(port.post(&threads, entry, content)))
            }
            _ => looked(port.look(&threads)),
        }
    }

    /// Makes a call that is about a port, a message or the journal.
    fn ask_more(&mut self, asked: Asked) -> Given {
        match asked {
            Asked::Port => Given::Answer(Answered::Port(self.open())),
            Asked::Post(port, _, _) => self.through(port, asked),
            Asked::Look(port) => self.through(port, asked),
            Asked::Deliver(sender, number, content) => {
                let message = Message {
                    sender,
                    number,
                    target: self.machine.id(),
                    content,
                };
                let delivered = self.machine.deliver(&self.threads, message);
                Given::Answer(Answered::Delivered(delivered))
            }
            Asked::Cut => Given::Answer(Answered::Cut(self.machine.cut(&self.threads))),
            Asked::Journal(label) => copied(self.machine.journal(&self.threads, label)),
            Asked::HandOut(label) => copied(self.machine.take_journal(&self.threads, label)),
            _ => Given::Answer(Answered::NotOpen),
        }
    }
}

impl<W: Wait + Copy + Drop> Played for Shared<W> {
    fn ask(&mut self, asked: Asked) -> Given {
        let threads = &self.threads;
        match asked {
            Asked::Turn(token, now) => {
                Given::Answer(Answered::Turned(self.machine.turn(threads, token, now)))
            }
            Asked::TakeOut(token) => {
                Given::Answer(Answered::TakenOut(self.machine.take_out(threads, token)))
            }
            Asked::Serve(token, now) => {
                Given::Answer(served(self.machine.serve(threads, token, now)))
            }
            Asked::Tick(now) => Given::Answer(Answered::Ticked(self.machine.tick(threads, now))),
            Asked::Collect(tag) => {
                Given::Answer(Answered::Collected(self.machine.collect(threads, tag)))
            }
            Asked::Reply(tag, content) => {
                Given::Answer(Answered::Replied(self.machine.reply(threads, tag, content)))
            }
            Asked::Stop(reason) => {
                Given::Answer(Answered::Stopped(self.machine.stop(threads, reason)))
            }
            _ => self.ask_more(asked),
        }
    }

    fn see(&self) -> Seen {
        let threads = &self.threads;
        Seen {
            reading: Reading {
                state: self.machine.state(threads),
                waiting: self.machine.waiting(threads),
                due: self.machine.next_due(threads),
                ended: self.machine.ended(threads),
                is_ready: self.machine.is_ready(threads),
            },
            ports: self.ports.len(),
            removable: self.machine.removable(threads),
            inside: None,
        }
    }
}

/// Plays lists of rows over a machine that has just started and comes to be shared in this way; its journal is emptied
/// behind each.
pub fn plays_shared<W: Wait + Copy + Drop>(
    rt: &Host<impl Abort>,
    threads: W,
    alloc: Global,
    way: Way,
    lists: &[&'static [Row]],
) {
    plays_lists::<Shared<W>>(rt, alloc, threads, way, lists);
}
