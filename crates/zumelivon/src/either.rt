//! Calls of machines of either family.
ghost use Rattle.std.specs.Prelude.{◌≡◌, ◌≢◌};
ghost use Rattle.st_core.specs.Callbacks.{callbacks_of};
ghost use Rattle.zumelivon.specs.Calls.{Looks, ReadsList, Removes, StopsDescribed, StopsEither, StopsHosted, Ticks, TicksEither};

use crate::codes::{DONE, INVALID, NO_SUCH_MACHINE, NOTHING};
use crate::flat_listed::FlatListed;
use crate::flat_machine::FlatMachine;
use crate::posting::number_of;
use crate::showing::{listed_at, machine_as};
use indexmap::IndexMap;
use st_core::Core;
use st_embedded::{Machines, remove_at, stop_at, stop_hosted, tick_at};
use st_events::{Module, Reason};
use std::alloc::Global;

fn tick_in<M: Module>(
    machines: &mut IndexMap<u64, Core<M>>,
    id: u64,
    now: u64,
    expired: &mut u64,
) -> u32
    ensures does { Ticks (callbacks_of M.Module M.State.eq) id now result expired.old expired.new machines.old machines.new }
    ensures not_closed { result ≢ 105 }
{
    match tick_at(machines, id, now) {
        Ok(count) => {
            *expired = count;
            DONE
        }
        Err(refusal) => number_of(refusal),
    }
}

pub(crate) fn tick(all: &mut Machines, id: u64, now: u64, expired: &mut u64) -> u32
    ensures does { TicksEither id now result expired.old expired.new all.old all.new }
    ensures not_closed { result ≢ 105 }
{
    if all.hosted.contains_key(&id) {
        tick_in(&mut all.hosted, id, now, expired)
    } else {
        tick_in(&mut all.described, id, now, expired)
    }
}

fn stop_in_hosted(alloc: Global, all: &mut Machines, id: u64, reason: Reason, word: u32) -> u32
    ensures does { StopsHosted id reason word result all.old all.new }
    ensures not_closed { result ≢ 105 }
{
    match stop_hosted(alloc, &mut all.hosted, id, reason, word) {
        Ok(_) => DONE,
        Err(refusal) => number_of(refusal),
    }
}

fn stop_in_described(all: &mut Machines, id: u64, reason: Reason) -> u32
    ensures does { StopsDescribed id reason result all.old all.new }
    ensures not_closed { result ≢ 105 }
{
    match stop_at(&mut all.described, id, reason) {
        Ok(_) => DONE,
        Err(refusal) => number_of(refusal),
    }
}

pub(crate) fn stop(alloc: Global, all: &mut Machines, id: u64, reason: u32, word: u32) -> u32
    ensures does { StopsEither id reason word result all.old all.new }
    ensures not_closed { result ≢ 105 }
{
    if all.hosted.contains_key(&id) {
        stop_in_hosted(alloc, all, id, reason, word)
    } else {
        stop_in_described(all, id, reason)
    }
}

pub(crate) fn remove(all: &mut Machines, id: u64) -> u32
    ensures does { Removes id result all.old all.new }
    ensures not_closed { result ≢ 105 }
{
    if remove_at(&mut all.hosted, id) {
        return DONE;
    }
    if remove_at(&mut all.described, id) {
        DONE
    } else {
        NO_SUCH_MACHINE
    }
}

pub(crate) fn look(all: &Machines, id: u64, machine: &mut FlatMachine) -> u32
    ensures looks { Looks id result machine.old machine.new all.now }
    ensures not_closed { result ≢ 105 }
{
    if let Some(core) = all.hosted.get(&id) {
        *machine = machine_as(core, core.state(), *core.data());
        return DONE;
    }
    match all.described.get(&id) {
        Some(core) => {
            *machine = machine_as(core, u64::from(core.state().number), 0);
            DONE
        }
        None => NO_SUCH_MACHINE,
    }
}

pub(crate) fn list(all: &Machines, list: u32, index: u64, listed: &mut FlatListed) -> u32
    ensures reads { ReadsList list index result listed.old listed.new all.now }
    ensures not_closed { result ≢ 105 }
{
    if list > 3 {
        return INVALID;
    }
    match listed_at(&all.lists, list, index) {
        Some(found) => {
            *listed = found;
            DONE
        }
        None => NOTHING,
    }
}
