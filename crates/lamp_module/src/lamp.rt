//! The module of a lamp: state, data and contents are types of its own.
ghost use Rattle.std.specs.Prelude.{◌≡◌, ◌==◌, ◌-◌, true, if◌then◌else◌, [], ◌∷◌, refl, ⊤};
ghost use Rattle.std.proofs.Common.{rules};
ghost use Rattle.st_events.specs.declared.enter_action.EnterAction.TheVariants.{Set};
ghost use Rattle.st_events.specs.declared.enter_outcome.EnterOutcome.{EnterOutcome};
ghost use Rattle.st_events.specs.declared.enter_outcome.EnterOutcome.TheVariants as enter_outcome;
ghost use Rattle.st_events.specs.declared.outcome.Outcome.{Outcome};
ghost use Rattle.st_events.specs.declared.outcome.Outcome.TheVariants as outcome;
ghost use Rattle.st_events.specs.declared.init.Init.TheVariants as init;
ghost use Rattle.st_events.specs.declared.time.Time.TheVariants.{After};
ghost use Rattle.st_events.specs.declared.timer.Timer.TheVariants.{State as StateTimer};
ghost use Rattle.lamp_module.specs.declared.lamp.Light.{Light};
ghost use Rattle.lamp_module.specs.declared.lamp.Light.TheVariants as light;
ghost use Rattle.lamp_module.specs.declared.lamp.Bulb.{Bulb};
ghost use Rattle.lamp_module.specs.declared.lamp.Press.{Press};
ghost use Rattle.lamp_module.specs.declared.lamp.Press.TheVariants as press;

use st_events::{
    Actions, EnterAction, EnterActions, EnterOutcome, Init, Kind, Module, Outcome, Reason, Time,
    Timer,
};
use std::alloc::{AllocError, Global};

/// Whether the lamp is on.
#[derive(Copy, Debug, PartialEq, Eq)]
pub enum Light {
    Off,
    On,
}

// By hand: with a derived one each call at a machine of this module takes the prover longer.
impl Clone for Light {
    ghost is_clone = { λ it copy. copy ≡ it };

    ghost is_infallible = { λ it. ⊤ };

    fn clone(&self) -> Result<Light, AllocError> {
        Ok(*self)
    }
}

/// The bulb, and how often it can still be turned on.
#[derive(Clone, Copy, Debug, PartialEq, Eq)]
pub struct Bulb {
    pub left: u8,
}

/// What is done to the lamp.
#[derive(Clone, Copy, Debug, PartialEq, Eq)]
pub enum Press {
    Switch,
    Renew(Bulb),
}

/// A lamp. A switch turns it on while its bulb lasts, and off; it turns itself off after 10,000
/// milliseconds. Another bulb leaves it as it is.
#[derive(Clone, Copy)]
pub struct Lamp;

impl Module for Lamp {
    type State = Light;

    type Data = Bulb;

    type Content = Press;

    type Arg = Bulb;

    ghost init_is = { λ lamp arg. init.Ok light.Off arg [] };

    ghost handle_is = { λ lamp kind content state held. elim content as (λ c. Outcome Light Bulb Press) [
      | press.Switch ↦ elim state as (λ s. Outcome Light Bulb Press) [
        | light.Off ↦ (if held.left == 0 then outcome.KeepStateAndData [] else outcome.NextState light.On held [])
        | light.On ↦ outcome.NextState light.Off held []
      ]
      | press.Renew bulb ↦ outcome.KeepState bulb []
    ] };

    ghost enters_is = { λ lamp. true };

    ghost enter_is = { λ lamp old state held. elim state as (λ s. EnterOutcome Bulb Press) [
      | light.Off ↦ enter_outcome.KeepStateAndData []
      | light.On ↦ enter_outcome.KeepState (record { left = held.left - 1 }) (Set StateTimer (After 10000) press.Switch ∷ [])
    ] };

    ghost terminate_is = { λ lamp reason state held. held.left };

    fn init(&self, alloc: Global, arg: &Bulb) -> Result<Init<Light, Bulb, Press>, AllocError> {
        Ok(Init::Ok(Light::Off, *arg, Actions::new(alloc)))
    }

    fn handle(
        &self,
        alloc: Global,
        _kind: Kind,
        content: &Press,
        state: Light,
        data: &Bulb,
    ) -> Result<Outcome<Light, Bulb, Press>, AllocError> {
        let none = Actions::new(alloc);
        match (content, state) {
            (Press::Switch, Light::Off) if data.left == 0 => Ok(Outcome::KeepStateAndData(none)),
            (Press::Switch, Light::Off) => Ok(Outcome::NextState(Light::On, *data, none)),
            (Press::Switch, Light::On) => Ok(Outcome::NextState(Light::Off, *data, none)),
            (Press::Renew(bulb), _) => Ok(Outcome::KeepState(*bulb, none)),
        }
    }

    fn enters(&self) -> bool {
        true
    }

    fn enter(
        &self,
        alloc: Global,
        _old: Light,
        state: Light,
        data: &Bulb,
    ) -> Result<EnterOutcome<Bulb, Press>, AllocError> {
        let mut actions = EnterActions::new(alloc);
        match state {
            Light::Off => Ok(EnterOutcome::KeepStateAndData(actions)),
            Light::On => {
                let left = data.left.saturating_sub(1);
                let off = EnterAction::Set(Timer::State, Time::After(10_000), Press::Switch);
                actions.push(off)?;
                Ok(EnterOutcome::KeepState(Bulb { left }, actions))
            }
        }
    }

    fn terminate(&self, _reason: Reason, _state: Light, data: &Bulb) -> u32 {
        u32::from(data.left)
    }

    fn copy_content(&self, _alloc: Global, content: &Press) -> Result<Press, AllocError> {
        Ok(*content)
    }

    fn copy_data(&self, _alloc: Global, data: &Bulb) -> Result<Bulb, AllocError> {
        Ok(*data)
    }

    ghost lawful = { Prim.search rules };
}
