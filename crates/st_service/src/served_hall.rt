//! The hall of a service, as its workers serve it.
ghost use Rattle.std.specs.Prelude.{◌≡◌, ◌⊎◌, if◌then◌else◌, Some, None, IsSome, IfSome, IfErr};
ghost use Rattle.st_events.specs.declared.refusal.Refusal.TheVariants.{NoMemory};
ghost use Rattle.st_hall.specs.Outstanding.{is_outstanding};

use crate::closing::Closing;
use crate::link::gives_up;
use crate::{Observer, Slices};
use st_events::Token;
use st_hall::{Hall, Hand, MachineId, Module, Refusal, Served};
use st_lock::{Journal, Machine};
use st_pool::Machines;
use std::alloc::Global;
use std::rt::Clock;
use std::sync::{Arc, Wait};

/// The hall of a service, as its workers serve it: in slices, behind each of which the observer is told what the machine did,
/// or its journal is cut where it is too long.
#[derive(Drop)]
pub(crate) struct ServedHall<M: Module, R: Wait + Clock + Drop, O: Observer<M> + Drop> {
    rt: R,
    hall: Arc<Hall<M, R>, Global>,
    slices: Slices<M, R>,
    observer: O,
    limit: Option<usize>,
    closing: Closing,
}

impl<M: Module, R: Wait + Clock + Drop, O: Observer<M> + Drop> ServedHall<M, R, O> {
    /// This hall, with an observer, and with journals of at most so many entries, but those of one slice more.
    pub(crate) fn new(
        rt: R,
        hall: Arc<Hall<M, R>, Global>,
        slices: Slices<M, R>,
        observer: O,
        limit: Option<usize>,
        closing: Closing,
    ) -> ServedHall<M, R, O> {
        ServedHall {
            rt,
            hall,
            slices,
            observer,
            limit,
            closing,
        }
    }

    /// Serves the machine of a token once, as `Hall::serve` does. Behind it the observer is told, or the journal is cut.
    pub(crate) fn serve(&self, token: Token, now: u64, hand: &mut Hand<M::Content>) -> Served
        requires woken { hand.old.woken ≡ None }
        ensures returned { IfSome result.token (λ back. back ≡ token) }
        ensures delivering { IsSome hand.old.message → result.token ≡ Some token }
        ensures carrying { IsSome hand.new.message → result.token ≡ Some token }
        ensures carried { IfSome hand.old.message (λ message. (hand.new.message ≡ None) ⊎ (hand.new.message ≡ Some message)) }

        ensures outstanding { IfSome result.refusal (λ refusal. result.token ≡ (if is_outstanding refusal then Some token else None)) }
    {
        let served = self.hall.serve(token, now, hand);
        self.after(token.machine, served.token.is_none());
        served
    }

    /// What follows the turns of a machine, which rests now, or is to be served again.
    pub(crate) fn after(&self, id: MachineId, rests: bool) {
        if self.observer.observes() {
            self.tell_until_done(id, rests);
        } else if let Some(limit) = self.limit {
            // Where there is no memory, the journal stays, and is cut behind the next turns.
            let _ = self.cut(id, limit);
        }
    }

    /// The journal of a machine is cut, where it is too long.
    fn cut(&self, id: MachineId, limit: usize) -> Result<bool, Refusal> {
        let machine = self.hall.machine(id)?;
        machine.cut_beyond(&self.rt, limit)
    }

    /// The observer is told what a machine did. Where there is no memory, it is tried again until the service is closing:
    /// `shut_down` tells what is left.
    fn tell_until_done(&self, id: MachineId, rests: bool) {
        for _ in self.rt.forever() {
            if self.tell(id, rests).is_ok() || gives_up(&self.rt, &self.closing) {
                return;
            }
        }
        unreachable!()
    }

    /// The observer is told what a machine did, if it is there. Where it is to be served again, it may be told later, so that
    /// what waits is not copied behind each turn.
    fn tell(&self, id: MachineId, rests: bool) -> Result<(), Refusal> {
        match self.hall.machine(id) {
            Ok(machine) if rests => self.tell_all(&*machine),
            Ok(machine) => self.tell_many(&*machine),
            Err(Refusal::NoSuchMachine) => Ok(()),
            Err(refusal) => Err(refusal),
        }
    }

    /// The observer is told what stands in a machine's journal. Where there is no memory, it stays there, and nothing is told.
    pub(crate) fn tell_all(&self, machine: &Machine<M>) -> Result<(), Refusal>
        ensures refusals { IfErr result (λ refusal. refusal ≡ NoMemory) }
    {
        let journal = machine.take_journal(&self.rt, "")?;
        self.tell_of(&journal);
        Ok(())
    }

    /// The same, where no fewer entries stand there than events wait.
    fn tell_many(&self, machine: &Machine<M>) -> Result<(), Refusal> {
        if let Some(journal) = machine.take_journal_beyond(&self.rt, 0, "")? {
            self.tell_of(&journal);
        }
        Ok(())
    }

    /// The observer is told the entries of a journal, in order.
    fn tell_of(&self, journal: &Journal<M::State, M::Content>) {
        for entry in journal.entries.as_slice() {
            self.observer.observe(journal.id, entry);
        }
    }

    /// Whether the observer is told anything.
    pub(crate) fn is_observed(&self) -> bool {
        self.observer.observes()
    }
}

impl<M: Module, R: Wait + Clock + Drop, O: Observer<M> + Drop> Machines for ServedHall<M, R, O> {
    type Content = M::Content;

    ghost served = { λ token now answer. IfSome answer (λ back. back ≡ token) };

    fn turn(&self, token: Token, now: u64, hand: &mut Hand<M::Content>) -> Option<Token> {
        let answer = self.slices.turn(token, now, hand);
        self.after(token.machine, answer.is_none());
        answer
    }
}
