//! What is read of a machine that threads share, with no entry, no copy and no walk of its journal.
ghost use Rattle.st_core.specs.Callbacks.{callbacks_of};
ghost use Rattle.st_core.specs.Choice.{is_ready_of, next_due_of, waiting_of};
ghost use Rattle.st_scheduled.specs.ScheduledMachine.{token_of};
ghost use Rattle.st_cell.specs.Calls.{is_removable};
ghost use Rattle.st_lock.specs.Machines.{IsFoundAt, IsReadAt, id_of};

use crate::Machine;
use st_cell::{Module, Reason, Token};
use st_lock_inner::its_cell_is_journaled;
use std::sync::Wait;

impl<M: Module> Machine<M> {
    /// Its state.
    ///
    /// Manual: `state()`; `sys:get_state/1`.
    pub fn state<R: Wait>(&self, rt: &R) -> M::State
        ensures { IsReadAt (callbacks_of M.Module M.State.eq) (λ machine. machine.state) (id_of self.now) result }
    {
        let (held, inner) = self.arrive(rt);
        its_cell_is_journaled(&inner);
        let answer = inner.core().state();
        drop(held.give_back(inner));
        answer
    }

    /// How many accepted events are not finished, as `Core::waiting` says it.
    ///
    /// Ours: docs/TRANSITIONS.md.
    pub fn waiting<R: Wait>(&self, rt: &R) -> usize
        ensures { IsReadAt (callbacks_of M.Module M.State.eq) (λ machine. waiting_of machine) (id_of self.now) result }
    {
        let (held, inner) = self.arrive(rt);
        its_cell_is_journaled(&inner);
        let answer = inner.core().waiting();
        drop(held.give_back(inner));
        answer
    }

    /// The moment, in milliseconds, at which the next of its time-outs is due, as `Core::next_due` says it. Whoever ticks it at that
    /// moment ticks it neither too early nor too often.
    ///
    /// Ours: docs/DECISIONS.md, Time-outs come by ticks.
    pub fn next_due<R: Wait>(&self, rt: &R) -> Option<u64>
        ensures { IsReadAt (callbacks_of M.Module M.State.eq) (λ machine. next_due_of machine) (id_of self.now) result }
    {
        let (held, inner) = self.arrive(rt);
        its_cell_is_journaled(&inner);
        let answer = inner.core().next_due();
        drop(held.give_back(inner));
        answer
    }

    /// Why it has ended, and its last word, if it has.
    ///
    /// Manual: `Module:terminate/3`; ours: docs/DECISIONS.md, A stop from outside.
    pub fn ended<R: Wait>(&self, rt: &R) -> Option<(Reason, u32)>
        ensures { IsReadAt (callbacks_of M.Module M.State.eq) (λ machine. machine.ended) (id_of self.now) result }
    {
        let (held, inner) = self.arrive(rt);
        its_cell_is_journaled(&inner);
        let answer = inner.core().ended();
        drop(held.give_back(inner));
        answer
    }

    /// Its outstanding token, which somebody has, or dropped.
    ///
    /// Ours: docs/DECISIONS.md, Tokens.
    pub fn token<R: Wait>(&self, rt: &R) -> Option<Token>
        ensures { IsFoundAt (callbacks_of M.Module M.State.eq) (λ cell. token_of cell.scheduled) (id_of self.now) result }
    {
        let (held, inner) = self.arrive(rt);
        its_cell_is_journaled(&inner);
        let answer = inner.token();
        drop(held.give_back(inner));
        answer
    }

    /// Says whether it has ended and none of its messages is left, so that it can be removed.
    ///
    /// Ours: docs/DECISIONS.md, Journals.
    pub fn removable<R: Wait>(&self, rt: &R) -> bool
        ensures { IsFoundAt (callbacks_of M.Module M.State.eq) (λ cell. is_removable cell) (id_of self.now) result }
    {
        let (held, inner) = self.arrive(rt);
        its_cell_is_journaled(&inner);
        let answer = inner.removable();
        drop(held.give_back(inner));
        answer
    }

    /// Whether it has an event for a turn, or a message to be taken out. Then it has a token, which somebody has.
    ///
    /// Ours: docs/DECISIONS.md, Tokens.
    pub fn is_ready<R: Wait>(&self, rt: &R) -> bool
        ensures { IsReadAt (callbacks_of M.Module M.State.eq) (λ machine. is_ready_of machine) (id_of self.now) result }
    {
        let (held, inner) = self.arrive(rt);
        its_cell_is_journaled(&inner);
        let answer = inner.core().is_ready();
        drop(held.give_back(inner));
        answer
    }
}
