//! A machine that workers serve.
ghost use Rattle.std.specs.Prelude.{◌≡◌, is_some, IfOk, IfErr, if◌then◌else◌};
ghost use Rattle.st_events.specs.declared.refusal.Refusal.TheVariants.{NoMemory};
ghost use Rattle.std.specs.Option.{option_to_list};
ghost use Rattle.st_scheduled.specs.ScheduledMachine.{id_of, token_of, is_token_of, is_callers, callers_token, moved, has_work};
ghost use Rattle.st_scheduled.specs.declared.next.Next.TheVariants as next;
ghost use Rattle.st_scheduled.specs.Serving.{is_full, woken, wake_of, scheduled_at_first};

use crate::{Next, Outstanding};
use st_core::{Core, Snapshot};
use st_events::{MachineId, Module, NUMBER_LIMIT, Refusal, Token};
use std::marker::Model;

/// A machine that workers serve: itself, how many commands it has taken, and its outstanding token.
///
/// Ours: docs/DECISIONS.md, Tokens.
#[derive(Drop)]
pub struct ScheduledMachine<M: Module> {
    pub(crate) core: Core<M>,
    // How many commands it has taken that were not refused; a collect that hands nothing out is none.
    pub(crate) count: u64,
    pub(crate) token: Option<Outstanding>,
}

impl<M: Module> Model for ScheduledMachine<M> {
    ghost use Rattle.st_scheduled.specs.ScheduledMachine.{ScheduledMachine};

    ghost Value = { ScheduledMachine M M.State M.Data M.Content };

    ghost view = { λ scheduled. record {
      core = scheduled.core;
      count = scheduled.count;
      token = scheduled.token;
    } };
}

impl<M: Module> ScheduledMachine<M> {
    /// A machine that has taken no command here. If it has work, it is issued a token, which goes to callers.
    ///
    /// Ours: docs/DECISIONS.md, Tokens.
    pub fn new(core: Core<M>) -> ScheduledMachine<M>
        ensures { result ≡ scheduled_at_first core }
    {
        let mut scheduled = ScheduledMachine {
            core,
            count: 0,
            token: None,
        };
        let _ = scheduled.wake();
        scheduled
    }

    /// Its id.
    ///
    /// Ours: docs/DECISIONS.md, Ids.
    pub fn id(&self) -> MachineId
        ensures { result ≡ id_of self.now }
    {
        self.core.id()
    }

    /// The machine itself.
    ///
    /// Ours: docs/DECISIONS.md, Tokens.
    pub fn core(&self) -> &Core<M>
        ensures { result.now ≡ self.now.core }
    {
        &self.core
    }

    /// The machine itself: its count and its token are let go.
    ///
    /// Ours: docs/DECISIONS.md, Tokens.
    pub fn into_core(self) -> Core<M>
        ensures { result ≡ self.core }
    {
        let ScheduledMachine { core, .. } = self;
        core
    }

    /// How many commands it has taken.
    ///
    /// Ours: docs/DECISIONS.md, Tokens.
    pub fn count(&self) -> u64
        ensures { result ≡ self.now.count }
    {
        self.count
    }

    /// Its outstanding token.
    ///
    /// Ours: docs/DECISIONS.md, Tokens.
    pub fn token(&self) -> Option<Token>
        ensures { result ≡ token_of self.now }
    {
        let outstanding = self.token?;
        Some(Token {
            machine: self.core.id(),
            wake: outstanding.wake,
        })
    }

    /// Says whether it has an outstanding token.
    ///
    /// Ours: docs/DECISIONS.md, Tokens.
    pub fn has_token(&self) -> bool
        ensures { result ≡ is_some self.now.token }
    {
        self.token.is_some()
    }

    /// What becomes of the token by which it was served.
    ///
    /// Ours: docs/DECISIONS.md, Tokens.
    pub fn next(&self, token: Token) -> Next
        ensures { result ≡ (if is_some self.now.token then next.Again token else next.Rest) }
    {
        if self.has_token() {
            Next::Again(token)
        } else {
            Next::Rest
        }
    }

    /// Says whether a token is its outstanding one.
    ///
    /// Ours: docs/DECISIONS.md, Tokens.
    pub fn is_token(&self, token: Token) -> bool
        ensures { result ≡ is_token_of token self.now }
    {
        let id = self.core.id();
        if token.machine.slot != id.slot || token.machine.serial != id.serial {
            return false;
        }
        match self.token {
            Some(outstanding) => outstanding.wake == token.wake,
            None => false,
        }
    }

    /// The whole machine as a value of its own, as `Core::snapshot` answers it.
    ///
    /// Nothing changes. Refused with `NoMemory` where memory is wanted and there is none.
    ///
    /// Ours: docs/DECISIONS.md, Snapshots.
    pub fn snapshot(&mut self) -> Result<Snapshot<M>, Refusal>
        ensures snapshot { IfOk result (λ snapshot. snapshot ≡ self.old.core.machine) }
        ensures unchanged { self.new ≡ self.old }

        ensures refusals { IfErr result (λ refusal. refusal ≡ NoMemory) }
    {
        self.core.snapshot()
    }

    /// Says whether its outstanding token has this wake number, and is with callers.
    ///
    /// Ours: docs/DECISIONS.md, Tokens.
    pub fn is_callers(&self, wake: u64) -> bool
        ensures { result ≡ is_callers wake self.now.token }
    {
        match self.token {
            Some(outstanding) => outstanding.with_callers && outstanding.wake == wake,
            None => false,
        }
    }

    /// Its outstanding token, if callers have it.
    ///
    /// Ours: docs/DECISIONS.md, Tokens.
    pub fn callers_token(&self) -> Option<Token>
        ensures { option_to_list result ≡ callers_token self.now.token (id_of self.now) }
    {
        match self.token {
            Some(outstanding) if outstanding.with_callers => self.token(),
            _ => None,
        }
    }

    /// Notes whether its outstanding token is with callers.
    ///
    /// Ours: docs/DECISIONS.md, Tokens.
    pub fn move_token(&mut self, with_callers: bool)
        ensures { self.new ≡ moved with_callers self.old }
    {
        if let Some(outstanding) = &mut self.token {
            outstanding.with_callers = with_callers;
        }
    }

    /// Says whether no further command can be counted.
    pub(crate) fn is_full(&self) -> bool
        ensures { result ≡ is_full self.now }
    {
        self.count >= NUMBER_LIMIT - 1
    }

    /// Says whether it has work, and so is to have a token.
    ///
    /// Ours: docs/DECISIONS.md, Tokens.
    pub fn has_work(&self) -> bool
        ensures { result ≡ has_work self.now.core }
    {
        self.core.is_ready()
    }

    /// Issues a token, which goes to the caller, where there is work and no token is outstanding; and answers it.
    pub(crate) fn wake(&mut self) -> Option<Token>
        ensures wake { result ≡ wake_of self.old }
        ensures issued { self.new ≡ woken self.old }
    {
        if self.token.is_some() || !self.has_work() {
            return None;
        }
        self.token = Some(Outstanding {
            wake: self.count,
            with_callers: true,
        });
        Some(Token {
            machine: self.core.id(),
            wake: self.count,
        })
    }
}
