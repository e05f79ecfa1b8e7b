//! A port of a machine.
ghost use Rattle.std.specs.Prelude.{◌≡◌, length, IfOk, IfErr, IfSome, OnErr};
ghost use Rattle.std.specs.Arc.{arc_value};
ghost use Rattle.st_events.specs.declared.refusal.Refusal.TheVariants.{NoMemory};
ghost use Rattle.st_core.specs.Callbacks.{callbacks_of};
ghost use Rattle.st_scheduled.specs.Answered.{posted_as};
ghost use Rattle.st_journal.specs.Journal.{numbers_of};
ghost use Rattle.st_lock_inner.specs.Inner.{EndsWith};
ghost use Rattle.st_lock.specs.Machines.{id_of, IsLookAt, PostsSomewhere};
ghost use Rattle.st_lock.specs.Ports.{posted};

use crate::Machine;
use crate::machine::{HolderOf, give_back};
use st_cell::{Entry, Look, Module, Posted, Refusal, Refused};
use st_lock_inner::{PostOf, its_cell_is_journaled};
use st_post_counter::{Counter, Endpoint};
use std::marker::Model;
use std::sync::{Arc, Wait};

/// A port of a machine, through which one caller posts. A contract sees the events that were posted through it, in
/// order: exactly those that were answered a number, whoever else posts.
///
/// A port that is dropped harms nobody: its posts stand.
///
/// Ours: docs/DECISIONS.md, Ports.
#[derive(Drop)]
pub struct Port<M: Module> {
    pub(crate) machine: Arc<Machine<M>>,
    pub(crate) counter: Counter<PostOf<M>>,
    pub(crate) end: Endpoint<PostOf<M>>,
    pub(crate) holder: HolderOf<M>,
    pub(crate) number: u64,
    pub(crate) count: u64,
}

impl<M: Module> Model for Port<M> {
    ghost use Rattle.std.specs.Arc.{arc_value};
    ghost use Rattle.st_lock.specs.Machines.{id_of};
    ghost use Rattle.st_lock.specs.Ports.{PortState, IsPort};

    ghost Value = { PortState M.Content };

    ghost view = { λ port. record { machine = id_of (arc_value port.machine); posts = port.end.seen.posts } };

    ghost invariant = { IsPort };
}

impl<M: Module> Port<M> {
    /// The machine.
    ///
    /// Ours: docs/DECISIONS.md, Ports.
    pub fn machine(&self) -> &Arc<Machine<M>>
        ensures { id_of (arc_value result.now) ≡ self.now.machine }
    {
        &self.machine
    }

    /// How many events were posted through it.
    ///
    /// Ours: docs/DECISIONS.md, Ports.
    pub fn count(&self) -> u64
        ensures { result ≡ length self.now.posts }
    {
        self.count
    }

    /// Hands the machine an event from outside, as `Cell::post` does, and answers the event's number. Where the machine
    /// has work then and no token is outstanding, it is issued one, which the caller gets.
    ///
    /// Refused as `Cell::post` is: with `Stopped` once the machine has ended, with `Exhausted` and with `NoMemory`. Then
    /// nothing was posted, and the content comes back.
    ///
    /// Manual: `call/2`, `send_request/2`, `cast/2`, `event_type()`.
    pub fn post<R: Wait>(
        &mut self,
        rt: &R,
        entry: Entry,
        content: M::Content,
    ) -> Result<Posted, Refused<M::Content>>
        ensures does { PostsSomewhere (callbacks_of M.Module M.State.eq) self.old.machine (length self.old.posts) entry content (posted_as result) }
        ensures token { IfOk result (λ answer. IfSome answer.wake (λ token. token.machine ≡ self.old.machine)) }
        ensures posted { IfOk result (λ answer. self.new ≡ posted (record { number = answer.number; entry = entry; content = content }) self.old) }

        ensures unchanged { OnErr result (self.new ≡ self.old) }
        ensures returned { IfErr result (λ refused. refused.value ≡ content) }
    {
        let (taken, mut inner) = self.machine.take(
            rt,
            &mut self.holder,
            &self.counter,
            self.number,
            self.count,
        );
        its_cell_is_journaled(&inner);
        let answer = inner.post(&self.counter, &mut self.end, self.number, entry, content);
        drop(give_back(taken, &mut self.holder, inner));
        match answer {
            Ok(posted) => {
                self.count += 1;
                Ok(posted)
            }
            Err(refused) => Err(refused),
        }
    }

    /// What is seen of the machine: its state, a copy of its data, how many events wait, the last entry's number, how
    /// many events were posted through this port, the numbers of those whose entries are in the journal, and the end.
    ///
    /// Refused with `NoMemory` where memory is wanted and there is none. It walks the journal.
    ///
    /// It takes the port as `&mut`, since it is one critical section of the port's own.
    ///
    /// Ours: docs/DECISIONS.md, Looks, Ports; manual: `sys:get_state/1`.
    pub fn look<R: Wait>(&mut self, rt: &R) -> Result<Look<M::State, M::Data>, Refusal>
        ensures same { self.new ≡ self.old }
        ensures mine { IfOk result (λ look. look.mine ≡ length self.old.posts) }
        ensures numbers { IfOk result (λ look. EndsWith (numbers_of self.old.posts) look.numbers) }
        ensures look { IfOk result (λ look. IsLookAt (callbacks_of M.Module M.State.eq) self.old.machine (length self.old.posts) look) }

        ensures refusals { IfErr result (λ refusal. refusal ≡ NoMemory) }
    {
        let (taken, mut inner) = self.machine.take(
            rt,
            &mut self.holder,
            &self.counter,
            self.number,
            self.count,
        );
        its_cell_is_journaled(&inner);
        let answer = inner.look(&self.counter, &mut self.end, self.number);
        drop(give_back(taken, &mut self.holder, inner));
        answer
    }
}
