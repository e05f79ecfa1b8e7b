//! A machine of a hall that was found.
ghost use Rattle.std.specs.Prelude.{◌≡◌, ◌⊎◌, if◌then◌else◌, Some, None, IsSome, IfSome};
ghost use Rattle.std.specs.Arc.{arc_value};
ghost use Rattle.st_lock.specs.Machines.{id_of};
ghost use Rattle.st_hall.specs.Outstanding.{is_outstanding};

use crate::outstanding::{served, unserved};
use crate::{Hall, Served};
use st_lock::Service;
use st_pool::{Hand, Machines};
use st_registry::{Machine, MachineId, Module, Token};
use std::marker::Model;
use std::sync::{Arc, Wait};

/// A machine of a hall that was found by its id, to be served more than once: no turn looks into the registry again. It may
/// be removed meanwhile, and is served all the same.
///
/// A contract sees its id.
///
/// Ours: docs/DECISIONS.md, Halls.
#[derive(Drop)]
pub struct FoundMachine<'a, M: Module, R: Wait + Drop> {
    hall: &'a Hall<M, R>,
    machine: Arc<Machine<M>>,
}

impl<'a, M: Module, R: Wait + Drop> Model for FoundMachine<'a, M, R> {
    ghost use Rattle.std.specs.Arc.{arc_value};
    ghost use Rattle.st_events.specs.declared.machine_id.MachineId.{MachineId};
    ghost use Rattle.st_lock.specs.Machines.{id_of};

    ghost Value = { MachineId };

    ghost view = { λ found. id_of (arc_value found.machine) };
}

impl<'a, M: Module, R: Wait + Drop> FoundMachine<'a, M, R> {
    /// A machine of a hall.
    pub(crate) fn new(hall: &'a Hall<M, R>, machine: Arc<Machine<M>>) -> FoundMachine<'a, M, R>
        ensures { result ≡ id_of (arc_value machine) }
    {
        FoundMachine { hall, machine }
    }

    /// Its id.
    ///
    /// Ours: docs/DECISIONS.md, Halls.
    pub fn id(&self) -> MachineId
        ensures { result ≡ self.now }
    {
        self.machine.id()
    }

    /// Serves it by a token, at a moment, in milliseconds, with what its worker carries, as `Hall::serve` serves the machine
    /// of a token.
    ///
    /// Refused with `NotQueued` where the token is not outstanding, and as `Hall::serve` is.
    ///
    /// Manual: `Module:handle_event/4`; ours: docs/DECISIONS.md, Halls, Tokens, Messages.
    pub fn serve(&self, token: Token, now: u64, hand: &mut Hand<M::Content>) -> Served
        requires woken { hand.old.woken ≡ None }
        ensures returned { IfSome result.token (λ back. back ≡ token) }
        ensures delivering { IsSome hand.old.message → result.token ≡ Some token }
        ensures carrying { IsSome hand.new.message → result.token ≡ Some token }
        ensures carried { IfSome hand.old.message (λ message. (hand.new.message ≡ None) ⊎ (hand.new.message ≡ Some message)) }

        ensures outstanding { IfSome result.refusal (λ refusal. result.token ≡ (if is_outstanding refusal then Some token else None)) }
    {
        if let Some(message) = hand.message.take() {
            return self.hall.deliver(token, message, hand);
        }
        match self.machine.serve(self.hall.rt(), token, now) {
            Ok(Service::Turned(next)) => served(token, next),
            // The machine's lock was let go: nobody has one while another machine's is taken.
            Ok(Service::Sent(message)) => self.hall.deliver(token, message, hand),
            Err(refused) => unserved(token, refused.refusal),
        }
    }
}

/// Workers serve it for its own tokens. Another's serves nothing here, and does not come back; but whatever token it is, a
/// message in the hand is delivered for it.
///
/// Ours: docs/DECISIONS.md, Halls.
impl<'a, M: Module, R: Wait + Drop> Machines for FoundMachine<'a, M, R> {
    type Content = M::Content;

    ghost served = { λ token now answer. IfSome answer (λ back. back ≡ token) };

    fn turn(&self, token: Token, now: u64, hand: &mut Hand<M::Content>) -> Option<Token> {
        self.serve(token, now, hand).token
    }
}
