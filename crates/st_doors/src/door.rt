//! The example module: a door with a code lock.
ghost use Rattle.std.specs.Prelude.{◌≡◌, ◌∷◌, [], IfOk};
ghost use Rattle.std.proofs.Common.{rules};
ghost use Rattle.st_doors.specs.Door.{init_of, handle_of, enters, enter_of, terminate_of, cast_of, info_of, timeout_of, call_of, pressed, with_button, without_buttons, buttons_run_out, locks_again};

use crate::{Digits, DoorContent, DoorData, DoorState};
use st_core::{
    Action, Actions, EnterAction, EnterActions, EnterOutcome, Init, Kind, Module, Outcome, Reason,
    Tag, Time, Timer,
};
use std::alloc::{AllocError, Global};

/// How many milliseconds after a button a locked door forgets its buttons, where no other event comes.
const BUTTONS_TIME: u32 = 30_000;

/// How many milliseconds a door stays open.
const OPEN_TIME: u32 = 10_000;

/// What the door's `handle` answers.
type DoorOutcome = Outcome<DoorState, DoorData, DoorContent>;

/// What the door's `enter` answers.
type DoorEntered = EnterOutcome<DoorData, DoorContent>;

/// A door that opens on a code. It is locked at first; buttons that make up the code open it. After
/// 10,000 milliseconds it is locked again. While it is locked, its buttons are forgotten 30,000
/// milliseconds after the last one; any other event that it handles before, a call too, cancels that,
/// and then they stay until one more button sets the time anew.
///
/// A button that it is to relay it sends to another machine, and one that another sent is as one that is cast.
///
/// It has enter calls: that of the open door sets the time-out that locks it again, and that of the locked
/// door, the first one too, forgets its buttons.
#[derive(Debug, Drop)]
pub struct Door;

/// The buttons after one more. They are as many as the code has digits, the last ones.
fn with_button(alloc: Global, code: &[u8], buttons: &[u8], digit: u8) -> Result<Digits, AllocError>
    ensures { IfOk result (λ after. after ≡ with_button code.now buttons.now digit) }
{
    let kept = if buttons.len() < code.len() {
        buttons
    } else {
        match buttons {
            [_, rest @ ..] => rest,
            [] => buttons,
        }
    };
    let mut after = Digits::copied(alloc, kept)?;
    after.push(digit)?;
    Ok(after)
}

/// The data with these buttons and the same code.
fn with_buttons(alloc: Global, data: &DoorData, buttons: Digits) -> Result<DoorData, AllocError>
    ensures { IfOk result (λ after. after ≡ record { code = «data».now.code; buttons = buttons }) }
{
    let code = Digits::copied(alloc, data.code.as_slice())?;
    Ok(DoorData { code, buttons })
}

/// The data with no button and the same code.
fn without_buttons(alloc: Global, data: &DoorData) -> Result<DoorData, AllocError>
    ensures { IfOk result (λ after. after ≡ without_buttons «data».now) }
{
    with_buttons(alloc, data, Digits::new(alloc))
}

/// A copy of the data, equal to it.
fn copied(alloc: Global, data: &DoorData) -> Result<DoorData, AllocError>
    ensures { IfOk result (λ copy. copy ≡ «data».now) }
{
    let buttons = Digits::copied(alloc, data.buttons.as_slice())?;
    with_buttons(alloc, data, buttons)
}

/// The list of one action, the event time-out that makes a locked door forget its buttons.
fn buttons_run_out(alloc: Global) -> Result<Actions<DoorContent>, AllocError>
    ensures { IfOk result (λ actions. actions ≡ buttons_run_out ∷ []) }
{
    let mut actions = Actions::new(alloc);
    let time = Time::After(BUTTONS_TIME);
    actions.push(Action::Set(Timer::Event, time, DoorContent::Nothing))?;
    Ok(actions)
}

/// The list of one action, the state time-out that locks an open door again.
fn locks_again(alloc: Global) -> Result<EnterActions<DoorContent>, AllocError>
    ensures { IfOk result (λ actions. actions ≡ locks_again ∷ []) }
{
    let mut actions = EnterActions::new(alloc);
    let time = Time::After(OPEN_TIME);
    actions.push(EnterAction::Set(Timer::State, time, DoorContent::Nothing))?;
    Ok(actions)
}

/// A button in `Locked`: it opens the door where it completes the code, and else counts for 30,000
/// milliseconds in which no other event comes.
fn pressed(alloc: Global, data: &DoorData, digit: u8) -> Result<DoorOutcome, AllocError>
    ensures { IfOk result (λ outcome. outcome ≡ pressed «data».now digit) }
{
    let buttons = with_button(alloc, data.code.as_slice(), data.buttons.as_slice(), digit)?;
    if buttons.as_slice() == data.code.as_slice() {
        let data = without_buttons(alloc, data)?;
        Ok(Outcome::NextState(DoorState::Open, data, Actions::new(alloc)))
    } else {
        let data = with_buttons(alloc, data, buttons)?;
        let actions = buttons_run_out(alloc)?;
        Ok(Outcome::NextState(DoorState::Locked, data, actions))
    }
}

/// A cast: a button counts while the door is locked, and is postponed while it is open. One that is to be relayed is sent to
/// its machine.
fn cast(
    alloc: Global,
    content: &DoorContent,
    state: DoorState,
    data: &DoorData,
) -> Result<DoorOutcome, AllocError>
    ensures { IfOk result (λ outcome. outcome ≡ cast_of content.now state «data».now) }
{
    match (content, state) {
        (DoorContent::Button(digit), DoorState::Locked) => pressed(alloc, data, *digit),
        (DoorContent::Button(_), DoorState::Open) => {
            let mut actions = Actions::new(alloc);
            actions.push(Action::Postpone(true))?;
            Ok(Outcome::KeepStateAndData(actions))
        }
        (DoorContent::Relay(target, digit), _) => {
            let mut actions = Actions::new(alloc);
            actions.push(Action::Send(*target, DoorContent::Button(*digit)))?;
            Ok(Outcome::KeepStateAndData(actions))
        }
        _ => Ok(Outcome::KeepStateAndData(Actions::new(alloc))),
    }
}

/// An info, as a message of another door is: a button is as one that is cast.
fn info(
    alloc: Global,
    content: &DoorContent,
    state: DoorState,
    data: &DoorData,
) -> Result<DoorOutcome, AllocError>
    ensures { IfOk result (λ outcome. outcome ≡ info_of content.now state «data».now) }
{
    match content {
        DoorContent::Button(_) => cast(alloc, content, state, data),
        _ => Ok(Outcome::KeepStateAndData(Actions::new(alloc))),
    }
}

/// A time-out: that of the event makes a locked door forget its buttons, that of the state locks an open
/// one.
fn time_out(
    alloc: Global,
    timer: Timer,
    state: DoorState,
    data: &DoorData,
) -> Result<DoorOutcome, AllocError>
    ensures { IfOk result (λ outcome. outcome ≡ timeout_of timer state «data».now) }
{
    match (timer, state) {
        (Timer::Event, DoorState::Locked) => {
            let data = without_buttons(alloc, data)?;
            Ok(Outcome::NextState(DoorState::Locked, data, Actions::new(alloc)))
        }
        (Timer::State, DoorState::Open) => {
            let data = copied(alloc, data)?;
            Ok(Outcome::NextState(DoorState::Locked, data, Actions::new(alloc)))
        }
        _ => Ok(Outcome::KeepStateAndData(Actions::new(alloc))),
    }
}

/// A call: the length of the code is told.
fn call(
    alloc: Global,
    tag: Tag,
    content: &DoorContent,
    data: &DoorData,
) -> Result<DoorOutcome, AllocError>
    ensures { IfOk result (λ outcome. outcome ≡ call_of tag content.now «data».now) }
{
    let mut actions = Actions::new(alloc);
    if let DoorContent::CodeLength = content {
        actions.push(Action::Reply(tag, DoorContent::Length(data.code.len())))?;
    }
    Ok(Outcome::KeepStateAndData(actions))
}

impl Module for Door {
    type State = DoorState;

    type Data = DoorData;

    type Content = DoorContent;

    type Arg = Digits;

    ghost init_is = { λ door code. init_of code };

    ghost handle_is = { λ door kind content state held. handle_of kind content state held };

    ghost enters_is = { λ door. enters };

    ghost enter_is = { λ door old state held. enter_of old state held };

    ghost terminate_is = { λ door reason state held. terminate_of reason state held };

    fn init(
        &self,
        alloc: Global,
        code: &Digits,
    ) -> Result<Init<DoorState, DoorData, DoorContent>, AllocError> {
        let data = DoorData {
            code: Digits::copied(alloc, code.as_slice())?,
            buttons: Digits::new(alloc),
        };
        Ok(Init::Ok(DoorState::Locked, data, Actions::new(alloc)))
    }

    fn handle(
        &self,
        alloc: Global,
        kind: Kind,
        content: &DoorContent,
        state: DoorState,
        data: &DoorData,
    ) -> Result<DoorOutcome, AllocError> {
        match kind {
            Kind::Call(tag) => call(alloc, tag, content, data),
            Kind::Cast => cast(alloc, content, state, data),
            Kind::Info => info(alloc, content, state, data),
            Kind::Timeout(timer) => time_out(alloc, timer, state, data),
            Kind::Internal => Ok(Outcome::KeepStateAndData(Actions::new(alloc))),
        }
    }

    fn enters(&self) -> bool {
        true
    }

    fn enter(
        &self,
        alloc: Global,
        _old: DoorState,
        state: DoorState,
        data: &DoorData,
    ) -> Result<DoorEntered, AllocError> {
        match state {
            DoorState::Locked => {
                let data = without_buttons(alloc, data)?;
                Ok(EnterOutcome::KeepState(data, EnterActions::new(alloc)))
            }
            DoorState::Open => Ok(EnterOutcome::KeepStateAndData(locks_again(alloc)?)),
        }
    }

    fn terminate(&self, _reason: Reason, _state: DoorState, data: &DoorData) -> u32 {
        data.buttons.len() as u32
    }

    fn copy_content(
        &self,
        _alloc: Global,
        content: &DoorContent,
    ) -> Result<DoorContent, AllocError> {
        Ok(*content)
    }

    fn copy_data(&self, alloc: Global, data: &DoorData) -> Result<DoorData, AllocError> {
        copied(alloc, data)
    }

    ghost lawful = { Prim.search rules };
}
