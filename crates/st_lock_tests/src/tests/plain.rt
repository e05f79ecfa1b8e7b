//! A module whose contents each ask for something else.
ghost use Rattle.std.specs.Prelude.{◌≡◌, ◌==◌, if◌then◌else◌, ℕ, true, false, None, [], ◌∷◌, refl, IfOk};
ghost use Rattle.std.proofs.Common.{rules};
ghost use Rattle.st_events.specs.declared.action.Action.TheVariants.{NextEvent, Postpone, Reply, Send, Set};
ghost use Rattle.st_events.specs.declared.enter_outcome.EnterOutcome.TheVariants as enter_outcome;
ghost use Rattle.st_events.specs.declared.init.Init.TheVariants as init;
ghost use Rattle.st_events.specs.declared.kind.Kind.TheVariants.{Call, Cast, Info, Timeout, Internal};
ghost use Rattle.st_events.specs.declared.outcome.Outcome.{Outcome};
ghost use Rattle.st_events.specs.declared.outcome.Outcome.TheVariants.{KeepStateAndData, NextState, Stop};
ghost use Rattle.st_events.specs.declared.time.Time.TheVariants.{After};
ghost use Rattle.st_events.specs.declared.timer.Timer.TheVariants.{State as StateTimer};

use st_core::{
    Action, Actions, EnterActions, EnterOutcome, Init, Kind, MachineId, Module, Outcome, Reason,
    Time, Timer,
};
use std::alloc::{AllocError, Global};

/// The machine to which messages are sent.
pub const OTHER: MachineId = MachineId { slot: 1, serial: 2 };

/// Keeps both, and does one action.
fn does(alloc: Global, action: Action<u32>) -> Result<Outcome<u32, u32, u32>, AllocError>
    ensures { IfOk result (λ outcome. outcome ≡ KeepStateAndData (action ∷ [])) }
{
    let mut actions = Actions::new(alloc);
    actions.push(action)?;
    Ok(Outcome::KeepStateAndData(actions))
}

/// Keeps both, and does two actions.
fn does_both(
    alloc: Global,
    first: Action<u32>,
    second: Action<u32>,
) -> Result<Outcome<u32, u32, u32>, AllocError>
    ensures { IfOk result (λ outcome. outcome ≡ KeepStateAndData (first ∷ second ∷ [])) }
{
    let mut actions = Actions::new(alloc);
    actions.push(first)?;
    actions.push(second)?;
    Ok(Outcome::KeepStateAndData(actions))
}

/// States, data and contents are numbers. The state is 0 at first and the data 7, and `terminate` answers the data.
///
/// | Content | Outcome |
/// |---|---|
/// | 1 | stops for the reason 9 |
/// | 2 | inserts 0 as internal |
/// | 3 | sets the state time-out for 5, with the content 0 |
/// | 4 | is postponed |
/// | 5 | inserts 0 as internal, and sets the state time-out for 5, with the content 0 |
/// | 6 | replies 50 where it is a call |
/// | 7 | inserts 0 as internal twice |
/// | 10 | sends 3 to the other machine |
/// | 11 | sends 3 and then 4 to it |
/// | 12 | leads to the state 1 |
/// | other | keeps both |
#[derive(Clone, Copy)]
pub struct Plain;

impl Module for Plain {
    type State = u32;

    type Data = u32;

    type Content = u32;

    type Arg = ();

    ghost init_is = { λ plain arg. init.Ok 0 7 [] };

    ghost handle_is = { λ plain kind content state held.
        if content == 1 then Stop 9 None
        else (if content == 2 then KeepStateAndData (NextEvent Internal 0 ∷ [])
        else (if content == 3 then KeepStateAndData (Set StateTimer (After 5) 0 ∷ [])
        else (if content == 4 then KeepStateAndData (Postpone true ∷ [])
        else (if content == 5 then KeepStateAndData (NextEvent Internal 0 ∷ Set StateTimer (After 5) 0 ∷ [])
        else (if content == 6 then (elim kind as (λ k. Outcome ℕ ℕ ℕ) [
          | Call tag ↦ KeepStateAndData (Reply tag 50 ∷ [])
          | Cast ↦ KeepStateAndData []
          | Info ↦ KeepStateAndData []
          | Timeout timer ↦ KeepStateAndData []
          | Internal ↦ KeepStateAndData []
        ])
        else (if content == 7 then KeepStateAndData (NextEvent Internal 0 ∷ NextEvent Internal 0 ∷ [])
        else (if content == 10 then KeepStateAndData (Send (record { slot = 1; serial = 2 }) 3 ∷ [])
        else (if content == 11 then KeepStateAndData (Send (record { slot = 1; serial = 2 }) 3 ∷ Send (record { slot = 1; serial = 2 }) 4 ∷ [])
        else (if content == 12 then NextState 1 held []
        else KeepStateAndData []))))))))) };

    ghost enters_is = { λ plain. false };

    ghost enter_is = { λ plain old state held. enter_outcome.KeepStateAndData [] };

    ghost terminate_is = { λ plain reason state held. held };

    fn init(&self, alloc: Global, _arg: &()) -> Result<Init<u32, u32, u32>, AllocError> {
        Ok(Init::Ok(0, 7, Actions::new(alloc)))
    }

    fn handle(
        &self,
        alloc: Global,
        kind: Kind,
        content: &u32,
        _state: u32,
        held: &u32,
    ) -> Result<Outcome<u32, u32, u32>, AllocError> {
        match *content {
            1 => Ok(Outcome::Stop(9, None)),
            2 => does(alloc, Action::NextEvent(Kind::Internal, 0)),
            3 => does(alloc, Action::Set(Timer::State, Time::After(5), 0)),
            4 => does(alloc, Action::Postpone(true)),
            5 => does_both(
                alloc,
                Action::NextEvent(Kind::Internal, 0),
                Action::Set(Timer::State, Time::After(5), 0),
            ),
            6 => match kind {
                Kind::Call(tag) => does(alloc, Action::Reply(tag, 50)),
                _ => Ok(Outcome::KeepStateAndData(Actions::new(alloc))),
            },
            7 => does_both(
                alloc,
                Action::NextEvent(Kind::Internal, 0),
                Action::NextEvent(Kind::Internal, 0),
            ),
            10 => does(alloc, Action::Send(OTHER, 3)),
            11 => does_both(alloc, Action::Send(OTHER, 3), Action::Send(OTHER, 4)),
            12 => Ok(Outcome::NextState(1, *held, Actions::new(alloc))),
            _ => Ok(Outcome::KeepStateAndData(Actions::new(alloc))),
        }
    }

    fn enters(&self) -> bool {
        false
    }

    fn enter(
        &self,
        alloc: Global,
        _old: u32,
        _state: u32,
        _held: &u32,
    ) -> Result<EnterOutcome<u32, u32>, AllocError> {
        Ok(EnterOutcome::KeepStateAndData(EnterActions::new(alloc)))
    }

    fn terminate(&self, _reason: Reason, _state: u32, held: &u32) -> u32 {
        *held
    }

    fn copy_content(&self, _alloc: Global, content: &u32) -> Result<u32, AllocError> {
        Ok(*content)
    }

    fn copy_data(&self, _alloc: Global, held: &u32) -> Result<u32, AllocError> {
        Ok(*held)
    }

    ghost lawful = { Prim.search rules };
}
