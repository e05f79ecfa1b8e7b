//! A machine starts at its vacancy in a registry.
ghost use Rattle.std.specs.Prelude.{◌≡◌, IfOk, IfErr, OnErr};
ghost use Rattle.st_events.specs.declared.refusal.Refusal.TheVariants.{NoMemory};
ghost use Rattle.st_core.specs.Callbacks.{callbacks_of};
ghost use Rattle.st_core.specs.Start.{start_of};
ghost use Rattle.st_directory.specs.Admission.{HasRoomFor};
ghost use Rattle.st_lock.specs.Machines.{id_for};
ghost use Rattle.st_registry.specs.Registry.{KeepsAs, StartsAs};

use crate::Started;
use crate::making::Making;
use st_core::Start;
use st_directory::{Directory, Vacancy};
use st_lock::{Core, Machine, Module, Refused, VacantMachine};
use std::alloc::Global;
use std::sync::{Arc, Wait};

/// Starts a machine at its vacancy. A machine that is shared gives its module back no more, so the memory for it is got first.
pub(crate) fn start_at<M: Module, R: Wait>(
    making: Making,
    rt: &R,
    directory: &mut Directory<Arc<Machine<M>>>,
    vacancy: Vacancy,
    module: M,
    arg: &M::Arg,
    now: u64,
) -> Result<Started, Refused<M>>
    requires room { HasRoomFor directory.old vacancy }
    ensures starts { StartsAs «module» (start_of (callbacks_of M.Module M.State.eq «module») «module» vacancy.id (M.init_is «module» arg.now) now 1) vacancy directory.old.state result directory.new.state }
{
    let vacant = match making.vacant(vacancy.id()) {
        Ok(vacant) => vacant,
        Err(refusal) => return Err(Refused::new(refusal, module)),
    };
    match Core::start(making.alloc, module, vacancy.id(), arg, now) {
        Ok(Start::Running(core, report)) => {
            drop(report);
            keep(making.alloc, rt, directory, vacancy, vacant, core)
        }
        Ok(Start::Ignored) => Ok(Started::Ignored),
        Ok(Start::Stopped(reason)) => Ok(Started::Stopped(reason)),
        Err(refused) => Err(refused),
    }
}

/// Keeps a machine that has started at its vacancy.
fn keep<M: Module, R: Wait>(
    alloc: Global,
    rt: &R,
    directory: &mut Directory<Arc<Machine<M>>>,
    vacancy: Vacancy,
    vacant: VacantMachine<M>,
    core: Core<M>,
) -> Result<Started, Refused<M>>
    requires vacancy { HasRoomFor directory.old vacancy }
    requires vacant { id_for vacant ≡ vacancy.id }
    requires core { core.machine.id ≡ vacancy.id }
    ensures keeps { IfOk result (λ started. KeepsAs core vacancy directory.old.state started directory.new.state) }

    ensures refusals { IfErr result (λ refused. refused ≡ record { refusal = NoMemory; value = core.module_ }) }
    ensures unchanged { OnErr result (directory.new ≡ directory.old) }
{
    let id = vacancy.id();
    match vacant.fill(alloc, rt, core) {
        Ok((machine, wake)) => {
            directory.insert(vacancy, machine);
            Ok(Started::Running { id, wake })
        }
        Err(refused) => Err(Refused::new(refused.refusal, refused.value.into_module())),
    }
}
