//! The module that is measured: each content is a piece of work.
ghost use Rattle.std.specs.Prelude.{◌≡◌, false, [], ◌∷◌, IfOk};
ghost use Rattle.std.proofs.Common.{rules};
ghost use Rattle.st_events.specs.declared.enter_outcome.EnterOutcome.TheVariants as enter_outcome;
ghost use Rattle.st_events.specs.declared.init.Init.TheVariants as init;
ghost use Rattle.bench.specs.Loaded.{settings_below, inserts_of, answer_to, passed, actions_of, leads_on, loaded};

use st_core::{
    Action, Actions, EnterActions, EnterOutcome, Init, Kind, MachineId, Module, Outcome, Reason,
    Time, Timer,
};
use std::alloc::{AllocError, Global};

/// How far a time-out lies that is to run on, in milliseconds.
const FAR: u32 = 1_000_000_000;

/// A piece of work.
#[derive(Clone, Copy)]
pub enum Work {
    /// Nothing is asked for.
    Keep,
    /// The event is postponed in each state below this one.
    PutOffBefore(u32),
    /// The next state, if there is one.
    Next,
    /// A reply, to a call.
    Answer,
    /// The named timers below this number are set, all in one list.
    SetMany(u32),
    /// So many events are inserted, all in one list.
    InsertMany(u32),
    /// The timer of this name is set for so many milliseconds.
    Set(u32, u32),
    /// The timer of this name is stopped.
    Cancel(u32),
    /// The time-out of the timer of this name has another content.
    Update(u32),
    /// A message is sent to the machine with this serial.
    Send(u64),
    /// A message that is to be passed on so often yet is sent from this place of a ring to the next one, and from this last
    /// place to the first.
    Pass(u32, u32, u32),
}

/// A machine that does what it is told. Its states are numbers from 0 on; its data is 0.
#[derive(Clone, Copy)]
pub struct Load;

/// One action.
fn one(alloc: Global, action: Action<Work>) -> Result<Actions<Work>, AllocError>
    ensures { IfOk result (λ actions. actions ≡ action ∷ []) }
{
    let mut actions = Actions::new(alloc);
    actions.push(action)?;
    Ok(actions)
}

/// The named timers below a number are set.
fn settings(alloc: Global, count: u32) -> Result<Actions<Work>, AllocError>
    ensures { IfOk result (λ actions. actions ≡ settings_below count) }
{
    let mut actions = Actions::new(alloc);
    for number in 0..count {
        actions.push(Action::Set(Timer::Named(number), Time::After(FAR), Work::Keep))?;
    }
    Ok(actions)
}

/// So many events are inserted.
fn inserts(alloc: Global, count: u32) -> Result<Actions<Work>, AllocError>
    ensures { IfOk result (λ actions. actions ≡ inserts_of count) }
{
    let mut actions = Actions::new(alloc);
    for _ in 0..count {
        actions.push(Action::NextEvent(Kind::Internal, Work::Keep))?;
    }
    Ok(actions)
}

/// A call is answered.
fn answer(alloc: Global, kind: Kind) -> Result<Actions<Work>, AllocError>
    ensures { IfOk result (λ actions. actions ≡ answer_to kind) }
{
    match kind {
        Kind::Call(tag) => one(alloc, Action::Reply(tag, Work::Keep)),
        _ => Ok(Actions::new(alloc)),
    }
}

/// A message is sent to the next machine of a ring, unless it was passed on often enough.
fn passed(alloc: Global, left: u32, here: u32, last: u32) -> Result<Actions<Work>, AllocError>
    ensures { IfOk result (λ actions. actions ≡ passed left here last) }
{
    if left == 0 {
        return Ok(Actions::new(alloc));
    }
    let next = if here < last { here + 1 } else { 0 };
    let to = MachineId {
        slot: next as usize,
        serial: next as u64 + 1,
    };
    one(alloc, Action::Send(to, Work::Pass(left - 1, next, last)))
}

/// The actions that a piece of work asks for in a state.
fn actions(
    alloc: Global,
    kind: Kind,
    content: Work,
    state: u32,
) -> Result<Actions<Work>, AllocError>
    ensures { IfOk result (λ actions. actions ≡ actions_of kind content state) }
{
    match content {
        Work::PutOffBefore(last) if state < last => one(alloc, Action::Postpone(true)),
        Work::Keep | Work::Next | Work::PutOffBefore(_) => Ok(Actions::new(alloc)),
        Work::Answer => answer(alloc, kind),
        Work::SetMany(count) => settings(alloc, count),
        Work::InsertMany(count) => inserts(alloc, count),
        Work::Set(number, after) => {
            let time = Time::After(after);
            one(alloc, Action::Set(Timer::Named(number), time, Work::Keep))
        }
        Work::Cancel(number) => {
            let stop = Action::Set(Timer::Named(number), Time::Infinity, Work::Keep);
            one(alloc, stop)
        }
        Work::Update(number) => one(alloc, Action::Update(Timer::Named(number), Work::Keep)),
        Work::Send(serial) => one(
            alloc,
            Action::Send(MachineId { slot: 0, serial }, Work::Keep),
        ),
        Work::Pass(left, here, last) => passed(alloc, left, here, last),
    }
}

/// Says whether a piece of work leads to another state.
fn leads_on(content: Work, state: u32) -> bool
    ensures { result ≡ leads_on content state }
{
    matches!(content, Work::Next) && state < u32::MAX
}

impl Module for Load {
    type State = u32;

    type Data = u32;

    type Content = Work;

    type Arg = u32;

    ghost init_is = { λ load arg. init.Ok 0 0 [] };

    ghost handle_is = { λ load kind content state held. loaded kind content state };

    ghost enters_is = { λ load. false };

    ghost enter_is = { λ load old state held. enter_outcome.KeepStateAndData [] };

    ghost terminate_is = { λ load reason state held. held };

    fn init(&self, alloc: Global, _arg: &u32) -> Result<Init<u32, u32, Work>, AllocError> {
        Ok(Init::Ok(0, 0, Actions::new(alloc)))
    }

    fn handle(
        &self,
        alloc: Global,
        kind: Kind,
        content: &Work,
        state: u32,
        _data: &u32,
    ) -> Result<Outcome<u32, u32, Work>, AllocError> {
        let actions = actions(alloc, kind, *content, state)?;
        if leads_on(*content, state) {
            Ok(Outcome::NextState(state + 1, 0, actions))
        } else {
            Ok(Outcome::KeepStateAndData(actions))
        }
    }

    fn enters(&self) -> bool {
        false
    }

    fn enter(
        &self,
        alloc: Global,
        _old: u32,
        _state: u32,
        _data: &u32,
    ) -> Result<EnterOutcome<u32, Work>, AllocError> {
        Ok(EnterOutcome::KeepStateAndData(EnterActions::new(alloc)))
    }

    fn terminate(&self, _reason: Reason, _state: u32, data: &u32) -> u32 {
        *data
    }

    fn copy_content(&self, _alloc: Global, content: &Work) -> Result<Work, AllocError> {
        Ok(*content)
    }

    fn copy_data(&self, _alloc: Global, data: &u32) -> Result<u32, AllocError> {
        Ok(*data)
    }

    ghost lawful = { Prim.search rules };
}
