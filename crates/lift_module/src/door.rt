//! The module of a door: it opens and closes as the cabin says.
ghost use Rattle.std.specs.Prelude.{◌≡◌, [], ◌∷◌, IfOk};
ghost use Rattle.std.proofs.Common.{rules};
ghost use Rattle.lift_module.specs.Doorway.{init_of, handle_of, enters, enter_of, terminate_of, stays, tells, told_of};

use crate::{Content, Gap};
use st_events::{
    Action, Actions, EnterAction, EnterActions, EnterOutcome, Init, Kind, MachineId, Module,
    Outcome, Reason, Time, Timer,
};
use std::alloc::{AllocError, Global};

/// How many milliseconds the door takes to close.
const CLOSING_TIME: u32 = 1_000;

/// What the door's `handle` answers.
type Handled = Outcome<Gap, MachineId, Content>;

/// What the door's `enter` answers.
type Entered = EnterOutcome<MachineId, Content>;

/// A door, which tells its cabin when it is open and when it is closed.
///
/// Where something stands in it while it closes, it opens, and inserts an event by which it closes again. It has enter
/// calls: that of `Closing` sets the time-out after which it is closed. Its data is the cabin's id, its last word 1 where
/// it is closed, and else 0.
///
/// Ours: an example of two machines that send each other messages.
#[derive(Clone, Copy)]
pub struct Door;

/// One action.
fn one(alloc: Global, action: Action<Content>) -> Result<Actions<Content>, AllocError>
    ensures { IfOk result (λ actions. actions ≡ action ∷ []) }
{
    let mut actions = Actions::new(alloc);
    actions.push(action)?;
    Ok(actions)
}

/// Both stay, and nothing is asked for.
fn stays(alloc: Global) -> Handled
    ensures { result ≡ stays }
{
    Outcome::KeepStateAndData(Actions::new(alloc))
}

/// The cabin is told something.
fn tells(alloc: Global, cabin: MachineId, content: Content) -> Result<Actions<Content>, AllocError>
    ensures { IfOk result (λ actions. actions ≡ tells cabin content) }
{
    one(alloc, Action::Send(cabin, content))
}

/// The door is told something.
fn told(
    alloc: Global,
    content: Content,
    state: Gap,
    cabin: MachineId,
) -> Result<Handled, AllocError>
    ensures { IfOk result (λ outcome. outcome ≡ told_of content state cabin) }
{
    match (content, state) {
        (Content::Close, Gap::Open) => {
            Ok(Outcome::NextState(Gap::Closing, cabin, Actions::new(alloc)))
        }
        (Content::Close, Gap::Shut) => {
            Ok(Outcome::KeepStateAndData(tells(alloc, cabin, Content::Closed)?))
        }
        (Content::OpenUp, _) => {
            let actions = tells(alloc, cabin, Content::Opened)?;
            Ok(Outcome::NextState(Gap::Open, cabin, actions))
        }
        (Content::Blocked, Gap::Closing) => {
            let again = one(alloc, Action::NextEvent(Kind::Internal, Content::Close))?;
            Ok(Outcome::NextState(Gap::Open, cabin, again))
        }
        _ => Ok(stays(alloc)),
    }
}

impl Module for Door {
    type State = Gap;

    type Data = MachineId;

    type Content = Content;

    type Arg = MachineId;

    ghost init_is = { λ door cabin. init_of cabin };

    ghost handle_is = { λ door kind content state cabin. handle_of kind content state cabin };

    ghost enters_is = { λ door. enters };

    ghost enter_is = { λ door old state cabin. enter_of old state cabin };

    ghost terminate_is = { λ door reason state cabin. terminate_of reason state cabin };

    fn init(
        &self,
        alloc: Global,
        cabin: &MachineId,
    ) -> Result<Init<Gap, MachineId, Content>, AllocError> {
        Ok(Init::Ok(Gap::Open, *cabin, Actions::new(alloc)))
    }

    fn handle(
        &self,
        alloc: Global,
        kind: Kind,
        content: &Content,
        state: Gap,
        data: &MachineId,
    ) -> Result<Handled, AllocError> {
        match (kind, state) {
            (Kind::Timeout(_), Gap::Closing) => {
                let actions = tells(alloc, *data, Content::Closed)?;
                Ok(Outcome::NextState(Gap::Shut, *data, actions))
            }
            (Kind::Timeout(_), _) => Ok(stays(alloc)),
            _ => told(alloc, *content, state, *data),
        }
    }

    fn enters(&self) -> bool {
        true
    }

    fn enter(
        &self,
        alloc: Global,
        _old: Gap,
        state: Gap,
        _data: &MachineId,
    ) -> Result<Entered, AllocError> {
        let mut actions = EnterActions::new(alloc);
        if state == Gap::Closing {
            let time = Time::After(CLOSING_TIME);
            actions.push(EnterAction::Set(Timer::State, time, Content::Closed))?;
        }
        Ok(EnterOutcome::KeepStateAndData(actions))
    }

    fn terminate(&self, _reason: Reason, state: Gap, _data: &MachineId) -> u32 {
        match state {
            Gap::Shut => 1,
            _ => 0,
        }
    }

    fn copy_content(&self, _alloc: Global, content: &Content) -> Result<Content, AllocError> {
        Ok(*content)
    }

    fn copy_data(&self, _alloc: Global, data: &MachineId) -> Result<MachineId, AllocError> {
        Ok(*data)
    }

    ghost lawful = { Prim.search rules };
}
