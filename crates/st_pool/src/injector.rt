//! The way into a pool.
ghost use Rattle.std.specs.Prelude.{◌≡◌, ◌≤◌, ◌∷◌, ◌++◌, ◌+◌, ◌<◌, ◌↔◌, [], length, true, false, IsTrue, IfErr, OnOk};
ghost use Rattle.st_runq.specs.Ends.{given_of, inlet_of};

use st_events::Token;
use st_runq::{Inlet, PutRefused};
use std::sync::Wait;

/// The end of the shared run queue that puts, whether the pool is closed, and how many tokens were scheduled and came to
/// rest. A token that a delivery woke counts as scheduled, and is put on its worker's own run queue. It stands under one
/// lock.
#[derive(Drop)]
pub struct Injector {
    inlet: Inlet,
    closed: bool,
    scheduled: u64,
    woken: u64,
    rested: u64,
    ghost counted: { scheduled ≡ length (given_of inlet) + woken },
    ghost ordered: { rested ≤ scheduled },
}

impl Injector {
    /// Nothing was scheduled.
    pub fn new(inlet: Inlet) -> Injector
        requires { given_of inlet ≡ [] }
        ensures inlet { result.inlet ≡ inlet }
        ensures closed { result.closed ≡ false }
        ensures counts { (result.scheduled ≡ 0) × (result.woken ≡ 0) × (result.rested ≡ 0) }
    {
        Injector {
            inlet,
            closed: false,
            scheduled: 0,
            woken: 0,
            rested: 0,
        }
    }

    /// From now on no token comes in.
    pub fn close(&mut self)
        ensures closed { self.new.closed ≡ true }
        ensures same { (self.new.inlet ≡ self.old.inlet) × (self.new.scheduled ≡ self.old.scheduled) × (self.new.woken ≡ self.old.woken) × (self.new.rested ≡ self.old.rested) }
    {
        self.closed = true;
    }

    /// Puts a token on the shared run queue. Refused where the pool is closed, there is no memory, or 2^64 - 1 tokens
    /// were scheduled; then the token comes back, and nothing changes.
    pub fn put<R: Wait>(&mut self, rt: &R, token: Token) -> Result<(), PutRefused>
        ensures put { OnOk result (given_of self.new.inlet ≡ given_of self.old.inlet ++ token ∷ []) }
        ensures not_closed { OnOk result (self.old.closed ≡ false) }
        ensures same { (inlet_of self.new.inlet ≡ inlet_of self.old.inlet) × (self.new.closed ≡ self.old.closed) × (self.new.woken ≡ self.old.woken) × (self.new.rested ≡ self.old.rested) }

        ensures refused { IfErr result (λ e. (e.0 ≡ token) × (given_of self.new.inlet ≡ given_of self.old.inlet)) }
    {
        if self.closed || self.scheduled == u64::MAX {
            return Err(PutRefused(token));
        }
        self.inlet.put_shared(rt, token)?;
        self.scheduled += 1;
        Ok(())
    }

    /// Counts a token that a delivery woke, before its worker puts it on a run queue of its own. `false`: 2^64 - 1 tokens
    /// were scheduled, and nothing changes.
    pub fn count_woken(&mut self) -> bool
        ensures counted { result ≡ true → (self.new.woken ≡ self.old.woken + 1) × (self.new.scheduled ≡ self.old.scheduled + 1) }
        ensures same { (self.new.inlet ≡ self.old.inlet) × (self.new.closed ≡ self.old.closed) × (self.new.rested ≡ self.old.rested) }

        ensures unchanged { result ≡ false → self.new ≡ self.old }
    {
        if self.scheduled == u64::MAX {
            return false;
        }
        self.scheduled += 1;
        self.woken += 1;
        true
    }

    /// A token came to rest. `true`: no other is to be served.
    pub fn rest(&mut self) -> bool
        ensures last { IsTrue result ↔ (self.new.rested ≡ self.new.scheduled) }
        ensures rested { self.old.rested < self.old.scheduled → self.new.rested ≡ self.old.rested + 1 }
        ensures same { (self.new.inlet ≡ self.old.inlet) × (self.new.closed ≡ self.old.closed) × (self.new.scheduled ≡ self.old.scheduled) × (self.new.woken ≡ self.old.woken) }
    {
        if self.rested < self.scheduled {
            self.rested += 1;
        }
        self.rested == self.scheduled
    }

    /// Whether as many tokens came to rest as were ever put or woken.
    pub fn is_drained(&self) -> bool
        ensures { IsTrue result ↔ (self.now.rested ≡ length (given_of self.now.inlet) + self.now.woken) }
    {
        self.rested == self.scheduled
    }
}
