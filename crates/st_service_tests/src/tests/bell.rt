//! A module whose machines have time-outs, and set and cancel those of each other.
ghost use Rattle.std.specs.Prelude.{◌≡◌, ◌+◌, ◌-◌, ◌^◌, ℕ, min, false, [], ◌∷◌, IfOk};
ghost use Rattle.std.proofs.Common.{rules};
ghost use Rattle.st_events.specs.declared.action.Action.TheVariants.{Send, Set};
ghost use Rattle.st_events.specs.declared.enter_outcome.EnterOutcome.TheVariants as enter_outcome;
ghost use Rattle.st_events.specs.declared.init.Init.TheVariants as init;
ghost use Rattle.st_events.specs.declared.outcome.Outcome.{Outcome};
ghost use Rattle.st_events.specs.declared.outcome.Outcome.TheVariants as outcome;
ghost use Rattle.st_events.specs.declared.timer.Timer.TheVariants.{Named};
ghost use Rattle.st_service_tests.specs.declared.tests.bell.Order.{Order};
ghost use Rattle.st_service_tests.specs.declared.tests.bell.Order.TheVariants as order;

use st_core::{
    Action, Actions, EnterActions, EnterOutcome, Init, Kind, Module, Outcome, Reason, Time, Timer,
};
use st_hall::MachineId;
use std::alloc::{AllocError, Global};

/// What a bell is told.
#[derive(Clone, Copy)]
pub enum Order {
    /// To ring: what its time-out tells it.
    Ring,
    /// To ring after this time, and not when it was told before.
    After(Time),
    /// To tell another bell to ring after this time.
    Tell(MachineId, Time),
}

/// A bell. Its state is how often it rang, and its data 0. It is started with two times after which it rings; orders set the
/// first anew. `terminate` answers 7.
#[derive(Clone, Copy)]
pub struct Bell;

/// A list of one action.
fn one(alloc: Global, action: Action<Order>) -> Result<Actions<Order>, AllocError>
    ensures { IfOk result (λ actions. actions ≡ action ∷ []) }
{
    let mut actions = Actions::new(alloc);
    actions.push(action)?;
    Ok(actions)
}

/// To ring after a time, by the timer of this name.
fn rings_after(name: u32, time: Time) -> Action<Order>
    ensures { result ≡ Set (Named name) time order.Ring }
{
    Action::Set(Timer::Named(name), time, Order::Ring)
}

impl Module for Bell {
    type State = u32;

    type Data = u32;

    type Content = Order;

    type Arg = (Time, Time);

    ghost init_is = { λ bell arg. init.Ok 0 0 (Set (Named 1) arg.0 order.Ring ∷ Set (Named 2) arg.1 order.Ring ∷ []) };

    ghost handle_is = { λ bell kind content state held. elim content as (λ c. Outcome ℕ ℕ Order) [
      | order.Ring ↦ outcome.NextState (min (state + 1) (2 ^ 32 - 1)) held []
      | order.After time ↦ outcome.KeepStateAndData (Set (Named 1) time order.Ring ∷ [])
      | order.Tell to time ↦ outcome.KeepStateAndData (Send to (order.After time) ∷ [])
    ] };

    ghost enters_is = { λ bell. false };

    ghost enter_is = { λ bell old state held. enter_outcome.KeepStateAndData [] };

    ghost terminate_is = { λ bell reason state held. 7 };

    fn init(&self, alloc: Global, arg: &(Time, Time)) -> Result<Init<u32, u32, Order>, AllocError> {
        let mut actions = one(alloc, rings_after(1, arg.0))?;
        actions.push(rings_after(2, arg.1))?;
        Ok(Init::Ok(0, 0, actions))
    }

    fn handle(
        &self,
        alloc: Global,
        _kind: Kind,
        content: &Order,
        state: u32,
        held: &u32,
    ) -> Result<Outcome<u32, u32, Order>, AllocError> {
        let action = match *content {
            Order::Ring => {
                let rang = state.saturating_add(1);
                return Ok(Outcome::NextState(rang, *held, Actions::new(alloc)));
            }
            Order::After(time) => rings_after(1, time),
            Order::Tell(to, time) => Action::Send(to, Order::After(time)),
        };
        Ok(Outcome::KeepStateAndData(one(alloc, action)?))
    }

    fn enters(&self) -> bool {
        false
    }

    fn enter(
        &self,
        alloc: Global,
        _old: u32,
        _state: u32,
        _held: &u32,
    ) -> Result<EnterOutcome<u32, Order>, AllocError> {
        Ok(EnterOutcome::KeepStateAndData(EnterActions::new(alloc)))
    }

    fn terminate(&self, _reason: Reason, _state: u32, _held: &u32) -> u32 {
        7
    }

    fn copy_content(&self, _alloc: Global, content: &Order) -> Result<Order, AllocError> {
        Ok(*content)
    }

    fn copy_data(&self, _alloc: Global, held: &u32) -> Result<u32, AllocError> {
        Ok(*held)
    }

    ghost lawful = { Prim.search rules };
}
