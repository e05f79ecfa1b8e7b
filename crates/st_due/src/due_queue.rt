//! The machines that are due some time, the earliest first.
ghost use Rattle.std.specs.Prelude.{◌≡◌, ◌+◌, ◌<◌, ◌≤◌, ◌⊎◌, true, [], length, max, is_some, not, if◌then◌else◌, slice_get, IsOk, OnOk, OnErr};
ghost use Rattle.std.specs.Option.{option_map};
ghost use Rattle.std.specs.HashMap.{get, spare};
ghost use Rattle.indexmap.specs.IndexMap.{insert_entry, insert_index, index_map_len, IsUnique};
ghost use Rattle.st_due.specs.Machines.{same_machine, moment_of, first_moment, due_by, left_by, with_noted, without_noted, InOrder, OnceEach};
ghost use Rattle.st_due.specs.Places.{due_of, AreAt};

use crate::DueMachine;
use crate::tournament::Tournament;
use indexmap::IndexMap;
use st_events::MachineId;
use std::alloc::{AllocError, Global};
use std::marker::Model;

/// The least number of places, where there are any.
const LEAST: usize = 4;

/// Machines, each with the moment at which its next time-out is due, the earliest first. A machine is its whole id:
/// two ids with one slot and other serials are two machines.
///
/// Of machines that are due at one moment the one with the lower slot comes first, and of one slot the one with the
/// lower serial.
///
/// Only `reserve` takes memory, and no other call walks over all machines: a note and a take make some steps for each
/// doubling of their number.
///
/// Ours: docs/DECISIONS.md, Due machines.
#[derive(Drop)]
pub struct DueQueue {
    // In any order. The machine at a place of this map is at the same place of the tournament.
    moments: IndexMap<MachineId, u64>,
    tournament: Tournament,
    // For how many machines more there is a place in both.
    ready: usize,
}

impl Model for DueQueue {
    ghost use Rattle.std.specs.HashMap.{spare};
    ghost use Rattle.st_due.specs.Machines.{Noted};
    ghost use Rattle.st_due.specs.Places.{ordered, IsSound};

    ghost Value = { Noted };

    ghost view = { λ queue. record { machines = ordered queue.moments.entries; reserved = queue.ready } };

    ghost invariant = { λ queue. IsSound queue.moments.entries queue.tournament (spare queue.moments) queue.ready };
}

impl DueQueue {
    /// No machine, and none reserved for. It takes no memory.
    ///
    /// Ours: docs/DECISIONS.md, Due machines.
    pub fn new(alloc: Global) -> DueQueue
        ensures { result ≡ record { machines = []; reserved = 0 } }
    {
        DueQueue {
            moments: IndexMap::new(alloc),
            tournament: Tournament::new(alloc),
            ready: 0,
        }
    }

    /// How many machines there are.
    ///
    /// Ours: docs/DECISIONS.md, Due machines.
    pub fn len(&self) -> usize
        ensures count { result ≡ length self.now.machines }
        ensures in_order { InOrder self.now.machines }
        ensures once_each { OnceEach self.now.machines }
    {
        self.moments.len()
    }

    /// The moment at which a machine is due, if it was noted.
    ///
    /// Ours: docs/DECISIONS.md, Due machines.
    pub fn moment_of(&self, machine: MachineId) -> Option<u64>
        ensures { result ≡ moment_of machine self.now.machines }
    {
        self.moments.get(&machine).copied()
    }

    /// The earliest moment at which a machine is due.
    ///
    /// Ours: docs/DECISIONS.md, Due machines.
    pub fn first(&self) -> Option<u64>
        ensures { result ≡ first_moment self.now.machines }
    {
        let first = self.tournament.first()?;
        Some(first.moment)
    }

    /// Reserves memory, so that `count` machines can be noted that are not there. Where so much is reserved, it takes no
    /// memory. One who reserves a place at a time pays little for each: the places at least double where they are too
    /// few. Where memory is wanted and there is none, nothing changes.
    ///
    /// Ours: docs/DECISIONS.md, Due machines.
    pub fn reserve(&mut self, count: usize) -> Result<(), AllocError>
        ensures reserved { OnOk result (self.new ≡ record self.old { reserved = max self.old.reserved count }) }

        ensures enough { count ≤ self.old.reserved → IsOk result }
        ensures unchanged { OnErr result (self.new ≡ self.old) }
    {
        if count <= self.ready {
            return Ok(());
        }
        let wanted = self.moments.len().checked_add(count).ok_or(AllocError)?;
        self.moments.reserve(count)?;
        widen(&self.moments, &mut self.tournament, wanted)?;
        self.ready = count;
        Ok(())
    }

    /// The next time-out of a machine is due at this moment. What was noted of the machine before counts no more, be it
    /// earlier or later; what was noted of the others stays. It takes no memory and cannot fail.
    ///
    /// Ours: docs/DECISIONS.md, Due machines.
    pub fn note(&mut self, machine: MachineId, moment: u64)
        requires { (is_some (moment_of machine self.old.machines) ≡ true) ⊎ (0 < self.old.reserved) }
        ensures { self.new ≡ with_noted self.old machine moment }
    {
        let (place, new) = put(&mut self.moments, machine, moment);
        self.tournament
            .set(place, Some(DueMachine { moment, machine }));
        if new {
            self.ready -= 1;
        }
    }

    /// A machine has no time-out any more. Where none was noted of it, nothing changes. It takes no memory.
    ///
    /// Ours: docs/DECISIONS.md, Due machines.
    pub fn forget(&mut self, machine: MachineId)
        ensures { self.new ≡ without_noted self.old machine }
    {
        let Some((place, _, _)) = self.moments.swap_remove_full(&machine) else {
            return;
        };
        let last = self.moments.len();
        self.tournament.set(place, due_at(&self.moments, place));
        self.tournament.set(last, None);
    }

    /// Takes out the machine that is due first, where that is due by this moment. It takes no memory.
    ///
    /// Ours: docs/DECISIONS.md, Due machines.
    pub fn take(&mut self, now: u64) -> Option<DueMachine>
        ensures taken { result ≡ due_by now self.old.machines }
        ensures left { self.new ≡ record self.old { machines = left_by now self.old.machines } }
    {
        let first = self.tournament.first()?;
        if now < first.moment {
            return None;
        }
        self.forget(first.machine);
        Some(first)
    }
}

/// Puts the moment of a machine, and answers its place, and whether it was not there.
fn put(moments: &mut IndexMap<MachineId, u64>, machine: MachineId, moment: u64) -> (usize, bool)
    requires { (is_some (get same_machine moments.old machine) ≡ true) ⊎ (0 < spare moments.old) }
    ensures place { result.0 ≡ insert_index same_machine moments.old machine }
    ensures new { result.1 ≡ not (is_some (get same_machine moments.old machine)) }
    ensures entries { moments.new.entries ≡ insert_entry same_machine moments.old.entries machine moment }
    ensures spare { spare moments.old ≤ spare moments.new + (if result.1 then 1 else 0) }
    ensures unique { IsUnique same_machine moments.new }
{
    if let Some(place) = moments.get_index_of(&machine) {
        moments[place] = moment;
        return (place, false);
    }
    match moments.insert_full(machine, moment) {
        Ok((place, _)) => (place, true),
        Err(_) => unreachable!(),
    }
}

/// The machine at a place, with its moment.
fn due_at(moments: &IndexMap<MachineId, u64>, place: usize) -> Option<DueMachine>
    ensures { result ≡ option_map due_of (slice_get moments.now.entries place) }
{
    let (machine, moment) = moments.get_index(place)?;
    Some(DueMachine {
        moment: *moment,
        machine: *machine,
    })
}

/// Makes a tournament of so many places at least: where there are too few, twice as many, each machine at its place.
fn widen(
    moments: &IndexMap<MachineId, u64>,
    tournament: &mut Tournament,
    wanted: usize,
) -> Result<(), AllocError>
    requires at { AreAt moments.now.entries tournament.old }
    requires fits { index_map_len moments.now ≤ wanted }
    ensures at { AreAt moments.now.entries tournament.new }
    ensures more { length tournament.old ≤ length tournament.new }
    ensures enough { OnOk result (wanted ≤ length tournament.new) }
{
    let places = tournament.len();
    if wanted <= places {
        return Ok(());
    }
    let alloc = *moments.allocator();
    let more = wanted.max(places.saturating_mul(2)).max(LEAST);
    let mut wider = Tournament::with_places(alloc, more)?;
    for place in 0..moments.len() {
        wider.set(place, due_at(moments, place));
    }
    *tournament = wider;
    Ok(())
}
