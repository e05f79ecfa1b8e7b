//! How machines that send to each other begin, and what their journals tell of messages.
use super::again::is_made_again;
use super::begun::running;
use super::host::{Host, got};
use super::ring::Ring;
use st_hall::{Hall, Machine, MachineId, Port};
use st_lock::{Answer, Command, JournalEntry, Source, Turned};
use std::process::Abort;
use std::sync::Wait;

/// Starts a machine that sends to another. Where there is no memory, it is started again.
pub fn starts<R: Wait + Drop>(
    rt: &Host<impl Abort>,
    hall: &Hall<Ring, R>,
    to: MachineId,
) -> MachineId {
    let started = match hall.start(None, Ring, &to, 0) {
        Ok(started) => started,
        Err(refused) => {
            is_made_again(rt, refused.refusal);
            let again = hall.start(None, refused.value, &to, 0);
            got(rt, "one allocation alone is refused", again)
        }
    };
    running(rt, started)
}

/// Opens a port of a machine. Where there is no memory, it is opened again.
pub fn opened<R: Wait + Drop>(
    rt: &Host<impl Abort>,
    threads: &impl Wait,
    hall: &Hall<Ring, R>,
    id: MachineId,
) -> Port<Ring> {
    let machine = hall.machine(id).expect(rt, "it is there");
    let port = match Machine::port(&machine, threads) {
        Ok(port) => port,
        Err(refusal) => {
            is_made_again(rt, refusal);
            let again = Machine::port(&machine, threads);
            got(rt, "one allocation alone is refused", again)
        }
    };
    drop(machine);
    port
}

/// What the journals of machines tell of messages: how many were sent, taken out, and delivered.
#[derive(Clone, Copy)]
pub struct Told {
    pub sent: u64,
    pub taken: u64,
    pub delivered: u64,
}

/// How many messages were sent by what a journal's entry tells.
fn sent_by(entry: &JournalEntry<u32, u32>) -> u64 {
    match &entry.answer {
        Answer::Turn(Ok(Turned::Reported(report))) => report.sent.as_slice().len() as u64,
        _ => 0,
    }
}

impl Told {
    /// Nothing yet.
    pub fn new() -> Told {
        Told {
            sent: 0,
            taken: 0,
            delivered: 0,
        }
    }

    /// Counts an entry more.
    pub fn count(&mut self, entry: &JournalEntry<u32, u32>) {
        let taken = u64::from(matches!(entry.command, Command::TakeOut));
        let delivered = u64::from(matches!(entry.source, Source::Message(_, _)));
        self.sent = self.sent.saturating_add(sent_by(entry));
        self.taken = self.taken.saturating_add(taken);
        self.delivered = self.delivered.saturating_add(delivered);
    }
}

/// What the journals of the machines of some ports tell.
pub fn told_of(rt: &impl Abort, threads: &impl Wait, ports: &Vec<Port<Ring>>) -> Told {
    let mut told = Told::new();
    for port in ports.iter() {
        let journal = port.machine().journal(threads, "a");
        let journal = got(rt, "there is memory", journal);
        for entry in journal.entries.as_slice() {
            told.count(entry);
        }
        drop(journal);
    }
    told
}
