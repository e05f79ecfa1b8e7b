//! The module of a cabin: it takes calls, and moves only while the door is closed.
ghost use Rattle.std.specs.Prelude.{◌≡◌, [], ◌∷◌, ◌++◌, IfOk};
ghost use Rattle.std.proofs.Common.{rules};
ghost use Rattle.st_events.specs.declared.outcome.Outcome.TheVariants.{KeepStateAndData};
ghost use Rattle.lift_module.specs.Riding.{init_of, handle_of, enters, enter_of, terminate_of, stays, postpones, leaves, tries_again, replies, halts, nearer, opens, opens_again, passes, rests, arrives, opened, call_of, parks, timeout_of, told_of};

use crate::{Content, Journey, Motion};
use st_events::{
    Action, Actions, EnterAction, EnterActions, EnterOutcome, Init, Kind, MachineId, Module,
    Outcome, Reason, Tag, Time, Timer,
};
use std::alloc::{AllocError, Global};

/// How many milliseconds a floor takes.
const FLOOR_TIME: u32 = 2_000;

/// How many milliseconds the door may take to close or to open, before it is told again.
const DOOR_TIME: u32 = 5_000;

/// How many milliseconds nobody may want the cabin, before it parks.
const PARKING_TIME: u32 = 60_000;

/// The timer of the parking.
const PARKING: Timer = Timer::Named(1);

/// The floor at which it parks, and begins.
const HOME: u8 = 0;

/// How often the door is told again to close, or to open.
const TRIES: u8 = 2;

/// What the cabin's `handle` answers.
type Handled = Outcome<Motion, Journey, Content>;

/// What the cabin's `enter` answers.
type Entered = EnterOutcome<Journey, Content>;

/// A cabin, which takes calls to floors, and moves a floor in 2,000 milliseconds.
///
/// It tells the door to close, and moves once the door says that it is closed; at its floor it tells the door to open,
/// and replies once the door says that it is open. A call that comes before is postponed. Where nobody wants it for
/// 60,000 milliseconds it parks. Where it is halted, where the door does not close or open, or opens on the way, all calls
/// fail, and it stays where it is.
///
/// It has enter calls: those of `Leaving` and of `Moving` set the time-out of the door and that of a floor. At its floor the
/// time-out of the door is set again. Its last word
/// is its floor.
///
/// Ours: an example of two machines that send each other messages.
#[derive(Clone, Copy)]
pub struct Cabin;

/// One action.
fn one(alloc: Global, action: Action<Content>) -> Result<Actions<Content>, AllocError>
    ensures { IfOk result (λ actions. actions ≡ action ∷ []) }
{
    and(Actions::new(alloc), action)
}

/// One action more, behind the others.
fn and(
    mut actions: Actions<Content>,
    action: Action<Content>,
) -> Result<Actions<Content>, AllocError>
    ensures { IfOk result (λ more. more ≡ actions ++ action ∷ []) }
{
    actions.push(action)?;
    Ok(actions)
}

/// Both stay, and one thing is asked for.
fn asks(alloc: Global, action: Action<Content>) -> Result<Handled, AllocError>
    ensures { IfOk result (λ outcome. outcome ≡ KeepStateAndData (action ∷ [])) }
{
    Ok(Outcome::KeepStateAndData(one(alloc, action)?))
}

/// Both stay, and nothing is asked for.
fn stays(alloc: Global) -> Handled
    ensures { result ≡ stays }
{
    Outcome::KeepStateAndData(Actions::new(alloc))
}

/// The event waits for another state.
fn postpones(alloc: Global) -> Result<Handled, AllocError>
    ensures { IfOk result (λ outcome. outcome ≡ postpones) }
{
    Ok(Outcome::KeepStateAndData(one(alloc, Action::Postpone(true))?))
}

/// The caller, if there is one, gets a reply.
fn replies(
    alloc: Global,
    caller: Option<Tag>,
    content: Content,
) -> Result<Actions<Content>, AllocError>
    ensures { IfOk result (λ actions. actions ≡ replies caller content) }
{
    match caller {
        None => Ok(Actions::new(alloc)),
        Some(tag) => one(alloc, Action::Reply(tag, content)),
    }
}

/// It is to go to another floor: the door is to close first.
fn leaves(
    alloc: Global,
    caller: Option<Tag>,
    target: u8,
    data: &Journey,
) -> Result<Handled, AllocError>
    ensures { IfOk result (λ outcome. outcome ≡ leaves caller target «data».now) }
{
    let no_parking = one(alloc, Action::Cancel(PARKING))?;
    let actions = and(no_parking, Action::Send(data.door, Content::Close))?;
    let journey = Journey {
        target,
        caller,
        tries: TRIES,
        ..*data
    };
    Ok(Outcome::NextState(Motion::Leaving, journey, actions))
}

/// It stays where it is, for good: who waits for it is told, and no time-out runs.
fn halts(alloc: Global, data: &Journey) -> Result<Handled, AllocError>
    ensures { IfOk result (λ outcome. outcome ≡ halts «data».now) }
{
    let told = replies(alloc, data.caller, Content::Failed)?;
    let actions = and(told, Action::Cancel(PARKING))?;
    Ok(Outcome::NextState(Motion::Stopped, *data, actions))
}

/// The door did not close in time: it is told again, so many times.
fn tries_again(alloc: Global, data: &Journey) -> Result<Handled, AllocError>
    ensures { IfOk result (λ outcome. outcome ≡ tries_again «data».now) }
{
    if data.tries == 0 {
        halts(alloc, data)
    } else {
        let tries = data.tries.saturating_sub(1);
        let actions = one(alloc, Action::Send(data.door, Content::Close))?;
        Ok(Outcome::RepeatState(Journey { tries, ..*data }, actions))
    }
}

/// The next floor on its way.
fn nearer(data: &Journey) -> u8
    ensures { result ≡ nearer «data».now }
{
    if data.floor < data.target {
        data.floor + 1
    } else {
        data.floor.saturating_sub(1)
    }
}

/// It is at its floor: the door is told to open, and has so long to answer.
fn opens(alloc: Global, data: Journey) -> Result<Handled, AllocError>
    ensures { IfOk result (λ outcome. outcome ≡ opens «data») }
{
    let told = one(alloc, Action::Send(data.door, Content::OpenUp))?;
    let time = Time::After(DOOR_TIME);
    let actions = and(told, Action::Set(Timer::State, time, Content::OpenUp))?;
    Ok(Outcome::KeepState(data, actions))
}

/// The door did not open in time: it is told again, so many times.
fn opens_again(alloc: Global, data: &Journey) -> Result<Handled, AllocError>
    ensures { IfOk result (λ outcome. outcome ≡ opens_again «data».now) }
{
    if data.tries == 0 {
        return halts(alloc, data);
    }
    let tries = data.tries.saturating_sub(1);
    opens(alloc, Journey { tries, ..*data })
}

/// It is at the next floor: the door is to open, or it moves on.
fn passes(alloc: Global, data: &Journey) -> Result<Handled, AllocError>
    ensures { IfOk result (λ outcome. outcome ≡ passes «data».now) }
{
    let floor = nearer(data);
    let journey = Journey { floor, ..*data };
    if floor == data.target {
        let tries = TRIES;
        opens(alloc, Journey { tries, ..journey })
    } else {
        Ok(Outcome::RepeatState(journey, Actions::new(alloc)))
    }
}

/// Who waited for it is told, and it is to park later; where nobody waited it has parked.
fn rests(alloc: Global, caller: Option<Tag>) -> Result<Actions<Content>, AllocError>
    ensures { IfOk result (λ actions. actions ≡ rests caller) }
{
    match caller {
        None => Ok(Actions::new(alloc)),
        Some(tag) => {
            let time = Time::After(PARKING_TIME);
            let told = one(alloc, Action::Reply(tag, Content::Arrived))?;
            and(told, Action::Set(PARKING, time, Content::Go(HOME)))
        }
    }
}

/// The door is open at its floor: who waited for it is told, and it is to park later.
fn arrives(alloc: Global, data: &Journey) -> Result<Handled, AllocError>
    ensures { IfOk result (λ outcome. outcome ≡ arrives «data».now) }
{
    let actions = rests(alloc, data.caller)?;
    let journey = Journey {
        caller: None,
        ..*data
    };
    Ok(Outcome::NextState(Motion::Resting, journey, actions))
}

/// The door is open: where the cabin is not at its floor somebody opened it, and the cabin is halted.
fn opened(alloc: Global, data: &Journey) -> Result<Handled, AllocError>
    ensures { IfOk result (λ outcome. outcome ≡ opened «data».now) }
{
    if data.floor == data.target {
        arrives(alloc, data)
    } else {
        halts(alloc, data)
    }
}

/// A call to a floor. Where it is there the reply comes at once, and while it is on its way the call is postponed.
fn call(
    alloc: Global,
    tag: Tag,
    floor: u8,
    state: Motion,
    data: &Journey,
) -> Result<Handled, AllocError>
    ensures { IfOk result (λ outcome. outcome ≡ call_of tag floor state «data».now) }
{
    match state {
        Motion::Resting if floor == data.floor => {
            asks(alloc, Action::Reply(tag, Content::Arrived))
        }
        Motion::Resting => leaves(alloc, Some(tag), floor, data),
        Motion::Stopped => asks(alloc, Action::Reply(tag, Content::Failed)),
        _ => postpones(alloc),
    }
}

/// Nobody wants it: it parks.
fn parks(alloc: Global, floor: u8, data: &Journey) -> Result<Handled, AllocError>
    ensures { IfOk result (λ outcome. outcome ≡ parks floor «data».now) }
{
    if floor == data.floor {
        Ok(stays(alloc))
    } else {
        leaves(alloc, None, floor, data)
    }
}

/// A time-out: that of the door, that of a floor, or that of the parking.
fn time_out(
    alloc: Global,
    content: Content,
    state: Motion,
    data: &Journey,
) -> Result<Handled, AllocError>
    ensures { IfOk result (λ outcome. outcome ≡ timeout_of content state «data».now) }
{
    match (content, state) {
        (Content::Close, Motion::Leaving) => tries_again(alloc, data),
        (Content::Arrived, Motion::Moving) => passes(alloc, data),
        (Content::OpenUp, Motion::Moving) => opens_again(alloc, data),
        (Content::Go(floor), Motion::Resting) => parks(alloc, floor, data),
        _ => Ok(stays(alloc)),
    }
}

/// The cabin is told something, by the door or from outside.
fn told(
    alloc: Global,
    content: Content,
    state: Motion,
    data: &Journey,
) -> Result<Handled, AllocError>
    ensures { IfOk result (λ outcome. outcome ≡ told_of content state «data».now) }
{
    match (content, state) {
        (_, Motion::Stopped) => Ok(stays(alloc)),
        (Content::Halt, _) => halts(alloc, data),
        (Content::Closed, Motion::Leaving) => {
            Ok(Outcome::NextState(Motion::Moving, *data, Actions::new(alloc)))
        }
        (Content::Opened, Motion::Moving) => opened(alloc, data),
        (Content::Park(floor), Motion::Resting) => {
            asks(alloc, Action::Update(PARKING, Content::Go(floor)))
        }
        (Content::Park(_), _) => postpones(alloc),
        _ => Ok(stays(alloc)),
    }
}

impl Module for Cabin {
    type State = Motion;

    type Data = Journey;

    type Content = Content;

    type Arg = MachineId;

    ghost init_is = { λ cabin door. init_of door };

    ghost handle_is = { λ cabin kind content state held. handle_of kind content state held };

    ghost enters_is = { λ cabin. enters };

    ghost enter_is = { λ cabin old state held. enter_of old state held };

    ghost terminate_is = { λ cabin reason state held. terminate_of reason state held };

    fn init(
        &self,
        alloc: Global,
        door: &MachineId,
    ) -> Result<Init<Motion, Journey, Content>, AllocError> {
        let data = Journey {
            door: *door,
            floor: HOME,
            target: HOME,
            caller: None,
            tries: TRIES,
        };
        Ok(Init::Ok(Motion::Resting, data, Actions::new(alloc)))
    }

    fn handle(
        &self,
        alloc: Global,
        kind: Kind,
        content: &Content,
        state: Motion,
        data: &Journey,
    ) -> Result<Handled, AllocError> {
        match (kind, *content) {
            (Kind::Call(tag), Content::Go(floor)) => call(alloc, tag, floor, state, data),
            (Kind::Timeout(_), content) => time_out(alloc, content, state, data),
            (_, content) => told(alloc, content, state, data),
        }
    }

    fn enters(&self) -> bool {
        true
    }

    fn enter(
        &self,
        alloc: Global,
        _old: Motion,
        state: Motion,
        _data: &Journey,
    ) -> Result<Entered, AllocError> {
        let mut actions = EnterActions::new(alloc);
        match state {
            Motion::Leaving => {
                let time = Time::After(DOOR_TIME);
                actions.push(EnterAction::Set(Timer::State, time, Content::Close))?;
            }
            Motion::Moving => {
                let time = Time::After(FLOOR_TIME);
                actions.push(EnterAction::Set(Timer::State, time, Content::Arrived))?;
            }
            _ => {}
        }
        Ok(EnterOutcome::KeepStateAndData(actions))
    }

    fn terminate(&self, _reason: Reason, _state: Motion, data: &Journey) -> u32 {
        u32::from(data.floor)
    }

    fn copy_content(&self, _alloc: Global, content: &Content) -> Result<Content, AllocError> {
        Ok(*content)
    }

    fn copy_data(&self, _alloc: Global, data: &Journey) -> Result<Journey, AllocError> {
        Ok(*data)
    }

    ghost lawful = { Prim.search rules };
}
