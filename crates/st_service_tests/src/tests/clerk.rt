//! A clerk who adds numbers.
ghost use Rattle.std.specs.Prelude.{◌≡◌, ◌+◌, ◌-◌, ◌^◌, min, false, [], ◌∷◌, ◌++◌, IfOk};
ghost use Rattle.st_events.specs.declared.action.Action.TheVariants.{NextEvent};
ghost use Rattle.st_events.specs.declared.kind.Kind.TheVariants.{Internal};
ghost use Rattle.st_service_tests.specs.declared.order.Order.TheVariants.{Add};
ghost use Rattle.std.proofs.Common.{rules};
ghost use Rattle.st_events.specs.declared.enter_outcome.EnterOutcome.TheVariants as enter_outcome;
ghost use Rattle.st_events.specs.declared.init.Init.TheVariants as init;
ghost use Rattle.st_service_tests.specs.Clerk.{added, answers, handled};
ghost use Rattle.st_service_tests.specs.declared.window.Window.TheVariants as window;

use crate::{Order, Window};
use st_events::{
    Action, Actions, EnterActions, EnterOutcome, Init, Kind, Outcome, Reason, Time, Timer,
};
use st_service::{MachineId, Module};
use std::alloc::{AllocError, Global};

/// A clerk. Its state is whether its window is open, its data the sum. It sends what it bounces to this machine.
/// `terminate` answers the sum.
#[derive(Clone, Copy)]
pub struct Clerk {
    pub partner: MachineId,
}

/// A list of one action.
fn one(alloc: Global, action: Action<Order>) -> Result<Actions<Order>, AllocError>
    ensures { IfOk result (λ actions. actions ≡ action ∷ []) }
{
    let mut actions = Actions::new(alloc);
    actions.push(action)?;
    Ok(actions)
}

/// A number is added where the window is open, and else the order waits.
fn add(
    alloc: Global,
    state: Window,
    held: u32,
    more: u32,
) -> Result<Outcome<Window, u32, Order>, AllocError>
    ensures { IfOk result (λ outcome. outcome ≡ added state held more) }
{
    match state {
        Window::Open => Ok(Outcome::KeepState(held.saturating_add(more), Actions::new(alloc))),
        Window::Shut => Ok(Outcome::KeepStateAndData(one(alloc, Action::Postpone(true))?)),
    }
}

/// Who asks by a call gets the sum.
fn answer(alloc: Global, kind: Kind, held: u32) -> Result<Actions<Order>, AllocError>
    ensures { IfOk result (λ actions. actions ≡ answers kind held) }
{
    match kind {
        Kind::Call(tag) => one(alloc, Action::Reply(tag, Order::Sum(held))),
        _ => Ok(Actions::new(alloc)),
    }
}

/// Who asks by a call gets the sum, and a number is added then.
fn answer_and_add(
    alloc: Global,
    kind: Kind,
    held: u32,
    more: u32,
) -> Result<Actions<Order>, AllocError>
    ensures { IfOk result (λ actions. actions ≡ answers kind held ++ NextEvent Internal (Add more) ∷ []) }
{
    let mut actions = answer(alloc, kind, held)?;
    actions.push(Action::NextEvent(Kind::Internal, Order::Add(more)))?;
    Ok(actions)
}

impl Module for Clerk {
    type State = Window;

    type Data = u32;

    type Content = Order;

    type Arg = ();

    ghost init_is = { λ clerk arg. init.Ok window.Open 0 [] };

    ghost handle_is = { λ clerk kind content state held. handled clerk.partner kind content state held };

    ghost enters_is = { λ clerk. false };

    ghost enter_is = { λ clerk old state held. enter_outcome.KeepStateAndData [] };

    ghost terminate_is = { λ clerk reason state held. held };

    fn init(&self, alloc: Global, _arg: &()) -> Result<Init<Window, u32, Order>, AllocError> {
        Ok(Init::Ok(Window::Open, 0, Actions::new(alloc)))
    }

    fn handle(
        &self,
        alloc: Global,
        kind: Kind,
        content: &Order,
        state: Window,
        held: &u32,
    ) -> Result<Outcome<Window, u32, Order>, AllocError> {
        let actions = match *content {
            Order::Add(more) => return add(alloc, state, *held, more),
            Order::Shut => return Ok(Outcome::NextState(Window::Shut, *held, Actions::new(alloc))),
            Order::Open => return Ok(Outcome::NextState(Window::Open, *held, Actions::new(alloc))),
            Order::Ask => answer(alloc, kind, *held)?,
            Order::Take(more) => answer_and_add(alloc, kind, *held, more)?,
            Order::Sum(_) => Actions::new(alloc),
            Order::Tell(to) => one(alloc, Action::Send(to, Order::Open))?,
            Order::Bounce => one(alloc, Action::Send(self.partner, Order::Bounce))?,
            Order::Spin => one(alloc, Action::NextEvent(Kind::Internal, Order::Spin))?,
            Order::Later(time) => one(
                alloc,
                Action::Set(Timer::Named(1), Time::After(time), Order::Add(1)),
            )?,
        };
        Ok(Outcome::KeepStateAndData(actions))
    }

    fn enters(&self) -> bool {
        false
    }

    fn enter(
        &self,
        alloc: Global,
        _old: Window,
        _state: Window,
        _held: &u32,
    ) -> Result<EnterOutcome<u32, Order>, AllocError> {
        Ok(EnterOutcome::KeepStateAndData(EnterActions::new(alloc)))
    }

    fn terminate(&self, _reason: Reason, _state: Window, held: &u32) -> u32 {
        *held
    }

    fn copy_content(&self, _alloc: Global, content: &Order) -> Result<Order, AllocError> {
        Ok(*content)
    }

    fn copy_data(&self, _alloc: Global, held: &u32) -> Result<u32, AllocError> {
        Ok(*held)
    }

    ghost lawful = { Prim.search rules };
}
