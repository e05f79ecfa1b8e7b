//! Each accepted event waits or was finished once.
use super::host::{Host, holds, is_count, same};
use super::machine::Machine;
use super::reserved::with_reserved;
use super::shown::Shown::{Posted, Reported};
use super::shown::{Did, Shown};
use super::table::Table;
use super::table_machine::PLAIN;
use super::tested::tell;
use super::told::Told::{Call, Cast, Collect, Reply, Tick, Turn};
use super::told::{THIRD, Told};
use st_core::{Core, Done};
use std::alloc::Global;
use std::process::Abort;

/// The numbers that were accepted, each once, and those that were finished.
#[derive(Drop)]
struct Account {
    accepted: Vec<u64>,
    finished: Vec<u64>,
}

impl Account {
    /// Nothing was accepted yet.
    fn new(rt: &Host<impl Abort>, alloc: Global) -> Account {
        Account {
            accepted: with_reserved(rt, alloc, 32),
            finished: with_reserved(rt, alloc, 32),
        }
    }

    /// A number is accepted, also where it was before.
    fn accept(&mut self, rt: &Host<impl Abort>, number: u64) {
        if !self.accepted.as_slice().contains(&number) {
            let pushed = self.accepted.push(number);
            holds(rt, "there is a place for each number", pushed.is_ok());
        }
    }

    /// A number is accepted that was not before, where there is one.
    fn accept_new(&mut self, rt: &Host<impl Abort>, number: Option<u64>) {
        if let Some(number) = number {
            let is_new = !self.accepted.as_slice().contains(&number);
            holds(rt, "a number is given once", is_new);
            self.accept(rt, number);
        }
    }

    /// What a turn did: its event and what it inserted are accepted, and its event may be finished, for
    /// the first time.
    fn read(&mut self, rt: &Host<impl Abort>, did: &Did) {
        holds(
            rt,
            "each that was inserted is shown",
            did.inserted.is_whole(),
        );
        self.accept_new(rt, did.inserted.first);
        self.accept_new(rt, did.inserted.second);
        self.accept_new(rt, did.inserted.third);
        let number = did.event.expect(rt, "a turn has an event");
        self.accept(rt, number);
        let is_left = !self.finished.as_slice().contains(&number);
        holds(rt, "an event is finished once", is_left);
        if did.done == Done::Finished {
            let pushed = self.finished.push(number);
            holds(rt, "there is a place for each event", pushed.is_ok());
        }
    }

    /// What an answer says.
    fn count(&mut self, rt: &Host<impl Abort>, answer: &Shown) {
        match answer {
            Posted(number) => self.accept_new(rt, Some(*number)),
            Reported(did) => self.read(rt, did),
            _ => {}
        }
    }

    /// Tells a command, and counts what it answers: the accepted ones that are not finished are as many as wait.
    fn follow<T: Machine>(&mut self, rt: &Host<impl Abort>, machine: &mut T, told: Told) {
        self.count(rt, &tell(rt, machine, told));
        let told_of = self.finished.len().checked_add(machine.see().waiting);
        let accepted = Some(self.accepted.len());
        same(
            rt,
            "what is accepted waits or is finished",
            &told_of,
            &accepted,
        );
    }
}

/// Tells a machine commands, and counts after each. Nothing waits in the end, and so many were accepted.
fn all_count<T: Machine>(rt: &Host<impl Abort>, alloc: Global, told: &[Told], accepted: usize) {
    let mut machine = T::begun(rt, alloc, &PLAIN);
    let mut account = Account::new(rt, alloc);
    for one in told {
        account.follow(rt, &mut machine, *one);
    }
    is_count(rt, "nothing waits in the end", machine.see().waiting, 0);
    is_count(
        rt,
        "so many were accepted",
        account.accepted.len(),
        accepted,
    );
}

/// Events that are postponed, retried and inserted, time-outs of each kind, and calls: after each command
/// the accepted ones that are not finished are as many as wait.
#[test]
fn what_is_accepted_waits_or_is_finished(rt: HostRuntime) {
    static TOLD: [Told; 23] = [
        Cast(10),
        Cast(12),
        Call(5),
        Turn(0),
        Turn(0),
        Turn(0),
        Turn(0),
        Reply(THIRD, 4),
        Turn(0),
        Collect(THIRD),
        Cast(28),
        Cast(25),
        Turn(1),
        Turn(1),
        Tick(9),
        Turn(9),
        Turn(9),
        Turn(9),
        Cast(3),
        Turn(9),
        Turn(9),
        Turn(9),
        Turn(9),
    ];
    let rt = Host::new(rt);
    all_count::<Core<Table>>(&rt, rt.alloc(), &TOLD, 10);
    rt.end();
}
