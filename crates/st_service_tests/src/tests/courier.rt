//! A module whose machines hand numbers on, and note what came in which order.
ghost use Rattle.std.specs.Prelude.{◌≡◌, false, [], IfOk};
ghost use Rattle.std.proofs.Common.{rules};
ghost use Rattle.st_events.specs.declared.enter_outcome.EnterOutcome.TheVariants as enter_outcome;
ghost use Rattle.st_events.specs.declared.init.Init.TheVariants as init;
ghost use Rattle.st_service_tests.specs.Courier.{sent_on, carried, summed};

use st_core::{Action, Actions, EnterActions, EnterOutcome, Init, Kind, Module, Outcome, Reason};
use st_hall::MachineId;
use std::alloc::{AllocError, Global};

/// A courier. A number that is cast is sent to the next courier. One that comes as a message is sent on, one less, unless it
/// is 0. Its state counts the messages, and its data is a sum over their numbers in which each counts thrice as much as the
/// next one. `terminate` answers 7.
#[derive(Clone, Copy)]
pub struct Courier {
    pub next: MachineId,
}

/// The sum with a number more.
pub fn with(sum: u64, number: u32) -> u64
    ensures { result ≡ summed sum number }
{
    sum.saturating_mul(3).saturating_add(u64::from(number))
}

/// What is sent for a number that came.
fn sends_on(alloc: Global, to: MachineId, number: u32) -> Result<Actions<u32>, AllocError>
    ensures { IfOk result (λ actions. actions ≡ sent_on to number) }
{
    let mut actions = Actions::new(alloc);
    if number > 0 {
        actions.push(Action::Send(to, number - 1))?;
    }
    Ok(actions)
}

impl Module for Courier {
    type State = u32;

    type Data = u64;

    type Content = u32;

    type Arg = ();

    ghost init_is = { λ courier arg. init.Ok 0 0 [] };

    ghost handle_is = { λ courier kind content state held. carried courier.next kind content state held };

    ghost enters_is = { λ courier. false };

    ghost enter_is = { λ courier old state held. enter_outcome.KeepStateAndData [] };

    ghost terminate_is = { λ courier reason state held. 7 };

    fn init(&self, alloc: Global, _arg: &()) -> Result<Init<u32, u64, u32>, AllocError> {
        Ok(Init::Ok(0, 0, Actions::new(alloc)))
    }

    fn handle(
        &self,
        alloc: Global,
        kind: Kind,
        content: &u32,
        state: u32,
        held: &u64,
    ) -> Result<Outcome<u32, u64, u32>, AllocError> {
        if let Kind::Info = kind {
            let actions = sends_on(alloc, self.next, *content)?;
            let sum = with(*held, *content);
            return Ok(Outcome::NextState(state.saturating_add(1), sum, actions));
        }
        let mut actions = Actions::new(alloc);
        if let Kind::Cast = kind {
            actions.push(Action::Send(self.next, *content))?;
        }
        Ok(Outcome::KeepStateAndData(actions))
    }

    fn enters(&self) -> bool {
        false
    }

    fn enter(
        &self,
        alloc: Global,
        _old: u32,
        _state: u32,
        _held: &u64,
    ) -> Result<EnterOutcome<u64, u32>, AllocError> {
        Ok(EnterOutcome::KeepStateAndData(EnterActions::new(alloc)))
    }

    fn terminate(&self, _reason: Reason, _state: u32, _held: &u64) -> u32 {
        7
    }

    fn copy_content(&self, _alloc: Global, content: &u32) -> Result<u32, AllocError> {
        Ok(*content)
    }

    fn copy_data(&self, _alloc: Global, held: &u64) -> Result<u64, AllocError> {
        Ok(*held)
    }

    ghost lawful = { Prim.search rules };
}
