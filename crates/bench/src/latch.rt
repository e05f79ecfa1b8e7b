//! A door that is measured: its code is 1 2, and its data are numbers, so that it takes no memory of its own.
ghost use Rattle.std.specs.Prelude.{◌≡◌, false, [], ◌∷◌, ⊤, IfOk};
ghost use Rattle.std.proofs.Common.{rules};
ghost use Rattle.st_events.specs.declared.enter_outcome.EnterOutcome.TheVariants as enter_outcome;
ghost use Rattle.st_events.specs.declared.init.Init.TheVariants as init;
ghost use Rattle.bench.specs.declared.latch.Leaf.TheVariants as leaf;
ghost use Rattle.bench.specs.Latched.{pressed, latched};

use st_core::{
    Action, Actions, EnterActions, EnterOutcome, Init, Kind, Module, Outcome, Reason, Time, Timer,
};
use std::alloc::{AllocError, Global};

/// Whether the door can be opened.
#[derive(Copy, PartialEq, Eq)]
pub enum Leaf {
    Locked,
    Open,
}

// By hand: with a derived one each call at a machine of this module takes the prover longer.
impl Clone for Leaf {
    ghost is_clone = { λ it copy. copy ≡ it };

    ghost is_infallible = { λ it. ⊤ };

    fn clone(&self) -> Result<Leaf, AllocError> {
        Ok(*self)
    }
}

/// What is done to the door.
#[derive(Clone, Copy)]
pub enum Press {
    /// A digit.
    Button(u8),
    /// It is locked by hand.
    Lock,
    /// A time-out of its own.
    Expired,
}

/// The door. Its data says how many digits of the code were right.
#[derive(Clone, Copy)]
pub struct Latch;

/// One action.
fn one(alloc: Global, action: Action<Press>) -> Result<Actions<Press>, AllocError>
    ensures { IfOk result (λ actions. actions ≡ action ∷ []) }
{
    let mut actions = Actions::new(alloc);
    actions.push(action)?;
    Ok(actions)
}

/// A button of a locked door, after so many right digits.
fn button(alloc: Global, digit: u8, right: u8) -> Result<Outcome<Leaf, u8, Press>, AllocError>
    ensures { IfOk result (λ outcome. outcome ≡ pressed digit right) }
{
    let later = Action::Set(Timer::Event, Time::After(30_000), Press::Expired);
    match (digit, right) {
        (1, 0) => Ok(Outcome::KeepState(1, one(alloc, later)?)),
        (2, 1) => {
            let later = Action::Set(Timer::State, Time::After(10_000), Press::Expired);
            Ok(Outcome::NextState(Leaf::Open, 0, one(alloc, later)?))
        }
        _ => Ok(Outcome::KeepState(0, one(alloc, later)?)),
    }
}

impl Module for Latch {
    type State = Leaf;

    type Data = u8;

    type Content = Press;

    type Arg = u8;

    ghost init_is = { λ latch arg. init.Ok leaf.Locked 0 [] };

    ghost handle_is = { λ latch kind content state held. latched content state held };

    ghost enters_is = { λ latch. false };

    ghost enter_is = { λ latch old state held. enter_outcome.KeepStateAndData [] };

    ghost terminate_is = { λ latch reason state held. held };

    fn init(&self, alloc: Global, _arg: &u8) -> Result<Init<Leaf, u8, Press>, AllocError> {
        Ok(Init::Ok(Leaf::Locked, 0, Actions::new(alloc)))
    }

    fn handle(
        &self,
        alloc: Global,
        _kind: Kind,
        content: &Press,
        state: Leaf,
        data: &u8,
    ) -> Result<Outcome<Leaf, u8, Press>, AllocError> {
        match (state, content) {
            (Leaf::Locked, Press::Button(digit)) => button(alloc, *digit, *data),
            (Leaf::Locked, Press::Lock) => Ok(Outcome::KeepStateAndData(Actions::new(alloc))),
            (Leaf::Locked, Press::Expired) => Ok(Outcome::KeepState(0, Actions::new(alloc))),
            (Leaf::Open, Press::Button(_)) => {
                let postponed = one(alloc, Action::Postpone(true))?;
                Ok(Outcome::KeepStateAndData(postponed))
            }
            (Leaf::Open, Press::Lock | Press::Expired) => {
                Ok(Outcome::NextState(Leaf::Locked, 0, Actions::new(alloc)))
            }
        }
    }

    fn enters(&self) -> bool {
        false
    }

    fn enter(
        &self,
        alloc: Global,
        _old: Leaf,
        _state: Leaf,
        _data: &u8,
    ) -> Result<EnterOutcome<u8, Press>, AllocError> {
        Ok(EnterOutcome::KeepStateAndData(EnterActions::new(alloc)))
    }

    fn terminate(&self, _reason: Reason, _state: Leaf, data: &u8) -> u32 {
        u32::from(*data)
    }

    fn copy_content(&self, _alloc: Global, content: &Press) -> Result<Press, AllocError> {
        Ok(*content)
    }

    fn copy_data(&self, _alloc: Global, data: &u8) -> Result<u8, AllocError> {
        Ok(*data)
    }

    ghost lawful = { Prim.search rules };
}
