//! A bell that rings for a while.
ghost use Rattle.std.specs.Prelude.{◌≡◌, false, [], ◌∷◌, IfOk};
ghost use Rattle.std.proofs.Common.{rules};
ghost use Rattle.st_events.specs.declared.enter_outcome.EnterOutcome.TheVariants as enter_outcome;
ghost use Rattle.st_events.specs.declared.init.Init.TheVariants as init;
ghost use Rattle.actor_tests.specs.Bell.{rung, hushed, handled};
ghost use Rattle.actor_tests.specs.declared.tone.Tone.TheVariants as tone;

use crate::{Tone, Wish};
use st_core::{MachineId, Module};
use st_events::{
    Action, Actions, EnterActions, EnterOutcome, Init, Kind, Outcome, Reason, Time, Timer,
};
use std::alloc::{AllocError, Global};

/// A bell. Its data is how often it has rung. `terminate` answers that.
#[derive(Clone, Copy)]
pub struct Bell;

/// The bell's neighbour.
const NEIGHBOUR: MachineId = MachineId { slot: 2, serial: 1 };

/// A list of one action.
fn one(alloc: Global, action: Action<Wish>) -> Result<Actions<Wish>, AllocError>
    ensures { IfOk result (λ actions. actions ≡ action ∷ []) }
{
    let mut actions = Actions::new(alloc);
    actions.push(action)?;
    Ok(actions)
}

/// It is told to ring: a quiet one rings until its time is over.
fn ring(alloc: Global, state: Tone, held: u32) -> Result<Outcome<Tone, u32, Wish>, AllocError>
    ensures { IfOk result (λ outcome. outcome ≡ rung state held) }
{
    match state {
        Tone::Quiet => {
            let set = Action::Set(Timer::State, Time::After(20), Wish::Hush);
            Ok(Outcome::NextState(Tone::Ringing, held, one(alloc, set)?))
        }
        Tone::Ringing => Ok(Outcome::KeepStateAndData(Actions::new(alloc))),
    }
}

/// It is told to be quiet.
fn hush(alloc: Global, state: Tone, held: u32) -> Outcome<Tone, u32, Wish>
    ensures { result ≡ hushed state held }
{
    let none = Actions::new(alloc);
    match state {
        Tone::Quiet => Outcome::KeepStateAndData(none),
        Tone::Ringing => Outcome::NextState(Tone::Quiet, held.saturating_add(1), none),
    }
}

impl Module for Bell {
    type State = Tone;

    type Data = u32;

    type Content = Wish;

    type Arg = ();

    ghost init_is = { λ bell arg. init.Ok tone.Quiet 0 [] };

    ghost handle_is = { λ bell kind content state held. handled content state held };

    ghost enters_is = { λ bell. false };

    ghost enter_is = { λ bell old state held. enter_outcome.KeepStateAndData [] };

    ghost terminate_is = { λ bell reason state held. held };

    fn init(&self, alloc: Global, _arg: &()) -> Result<Init<Tone, u32, Wish>, AllocError> {
        Ok(Init::Ok(Tone::Quiet, 0, Actions::new(alloc)))
    }

    fn handle(
        &self,
        alloc: Global,
        _kind: Kind,
        content: &Wish,
        state: Tone,
        held: &u32,
    ) -> Result<Outcome<Tone, u32, Wish>, AllocError> {
        match *content {
            Wish::Ring => ring(alloc, state, *held),
            Wish::Hush => Ok(hush(alloc, state, *held)),
            Wish::Tell => {
                let send = Action::Send(NEIGHBOUR, Wish::Ring);
                Ok(Outcome::KeepStateAndData(one(alloc, send)?))
            }
            Wish::Part => Ok(Outcome::Stop(7, None)),
        }
    }

    fn enters(&self) -> bool {
        false
    }

    fn enter(
        &self,
        alloc: Global,
        _old: Tone,
        _state: Tone,
        _held: &u32,
    ) -> Result<EnterOutcome<u32, Wish>, AllocError> {
        Ok(EnterOutcome::KeepStateAndData(EnterActions::new(alloc)))
    }

    fn terminate(&self, _reason: Reason, _state: Tone, held: &u32) -> u32 {
        *held
    }

    fn copy_content(&self, _alloc: Global, content: &Wish) -> Result<Wish, AllocError> {
        Ok(*content)
    }

    fn copy_data(&self, _alloc: Global, held: &u32) -> Result<u32, AllocError> {
        Ok(*held)
    }

    ghost lawful = { Prim.search rules };
}
