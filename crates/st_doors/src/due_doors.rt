//! Doors, when something of them is due, and which are awake.
ghost use Rattle.std.specs.Prelude.{◌≡◌, ◌+◌, ◌<◌, ◌≤◌, ◌^◌, ◌⊎◌, ℕ, Bool, true, false, None, IfOk, IfSome, IfNone, OnOk, OnErr, length, slice_set, slice_index_or};
ghost use Rattle.std.specs.List.{list_any};
ghost use Rattle.st_due.specs.Machines.{InOrder};
ghost use Rattle.st_doors.specs.Doors.{NamedDoor, IsFirst, SameLabels, all_expired_of, is_ready_door, kept_of, ticked_doors};
ghost use Rattle.st_doors.specs.Late.{IsInTime, caught_up};
ghost use Rattle.st_doors.specs.Notes.{AreAfter, AreAwake, AreBySerial, AreWatched, AreWatchedBut, due_count, first_of, others_of};
ghost use Rattle.st_doors.specs.Settling.{has_id};

use crate::answers::let_go;
use crate::doors::Doors;
use st_core::Command;
use st_due::DueQueue;
use st_events::MachineId;
use std::alloc::AllocError;

/// Reserves memory, so that one door more can be noted, and be awake.
pub(crate) fn reserve(due: &mut DueQueue, awake: &mut DueQueue) -> Result<(), AllocError>
    ensures reserved { OnOk result ((0 < due.new.reserved) × (0 < awake.new.reserved)) }

    // Whatever the answer is.
    ensures due { due.new.machines ≡ due.old.machines }
    ensures awake { awake.new.machines ≡ awake.old.machines }
{
    due.reserve(1)?;
    awake.reserve(1)?;
    Ok(())
}

/// Makes up for a late tick at the door at a place. Where memory is wanted and there is none, the doors stay.
fn catch_up(doors: &mut Doors, place: usize, moment: u64) -> Result<(), AllocError>
    requires place { place < length doors.old }
    requires late { (d : NamedDoor) → (due : ℕ) × IsInTime moment due (kept_of (slice_index_or doors.old place d)) }
    ensures caught { OnOk result ((d : NamedDoor) → doors.new ≡ slice_set doors.old place (caught_up moment (slice_index_or doors.old place d))) }

    ensures unchanged { OnErr result (doors.new ≡ doors.old) }
{
    if doors.is_late_at(place, moment) {
        let answer = doors.tell_at(place, Command::Tick(moment))?;
        let_go(answer);
    }
    Ok(())
}

/// Makes ready to tell the door at a place a command, and to note it anew: memory is reserved, and a late tick is made up for.
/// Where memory is wanted and there is none, the doors stay.
pub(crate) fn prepare(
    doors: &mut Doors,
    due: &mut DueQueue,
    awake: &mut DueQueue,
    place: usize,
    late: u64,
) -> Result<(), AllocError>
    requires place { place < length doors.old }
    requires late { (d : NamedDoor) → (due : ℕ) × IsInTime late due (kept_of (slice_index_or doors.old place d)) }
    ensures caught { OnOk result ((d : NamedDoor) → doors.new ≡ slice_set doors.old place (caught_up late (slice_index_or doors.old place d))) }
    ensures reserved { OnOk result ((0 < due.new.reserved) × (0 < awake.new.reserved)) }

    ensures unchanged { OnErr result (doors.new ≡ doors.old) }

    // Whatever the answer is.
    ensures due { due.new.machines ≡ due.old.machines }
    ensures awake { awake.new.machines ≡ awake.old.machines }
{
    reserve(due, awake)?;
    catch_up(doors, place, late)
}

/// Notes anew when something of the door at a place is due, and whether it is awake. Before `least` nothing of it is.
pub(crate) fn note_at(
    doors: &Doors,
    due: &mut DueQueue,
    awake: &mut DueQueue,
    place: usize,
    least: u64,
)
    requires place { place < length doors.now }
    requires due { 0 < due.old.reserved }
    requires awake { 0 < awake.old.reserved }
    requires bounded { least ≤ 2 ^ 63 }
    ensures watched { (late : ℕ) (traced : Bool) (d : NamedDoor)
        → AreWatchedBut place late traced due.old.machines awake.old.machines doors.now
        → IsInTime late least (kept_of (slice_index_or doors.now place d))
        → (traced ≡ false → (slice_index_or doors.now place d).history ≡ None)
        → AreWatched late traced due.new.machines awake.new.machines doors.now }
    ensures no_more { (moment : ℕ) → moment < least → due_count moment due.new.machines ≤ due_count moment due.old.machines }
{
    doors.serials_rise();
    let id = doors.id_at(place);
    let is_ready = doors.is_ready_at(place);
    due.note(id, doors.quiet_until_at(place).max(least));
    if is_ready {
        awake.note(id, id.serial);
    }
}

/// Machines stand in the order in which they are due, and can be counted.
fn is_in_order(due: &DueQueue)
    ensures order { InOrder due.now.machines }
    ensures few { length due.now.machines < 2 ^ 64 }
{
    let _ = due.len();
}

/// Ticks the door of which something is due first, if that is due by a moment, and answers how many time-outs expire.
fn tick_first(
    doors: &mut Doors,
    due: &mut DueQueue,
    awake: &mut DueQueue,
    late: u64,
    moment: u64,
) -> Result<Option<u64>, AllocError>
    requires order { late ≤ moment }
    requires early { moment < 2 ^ 63 }
    requires watched { AreWatched late false due.old.machines awake.old.machines doors.old }
    ensures counted { IfOk result (λ count. IfSome count (λ count. count + all_expired_of moment doors.new ≡ all_expired_of moment doors.old)) }
    ensures fewer { IfOk result (λ count. IfSome count (λ _. due_count moment due.new.machines < due_count moment due.old.machines)) }
    ensures none { IfOk result (λ count. IfNone count ((doors.new ≡ doors.old) × AreAfter moment due.new.machines)) }

    // Whatever the answer is.
    ensures ticked { ticked_doors moment doors.new ≡ ticked_doors moment doors.old }
    ensures same_labels { SameLabels doors.old doors.new }
    ensures watched { AreWatched late false due.new.machines awake.new.machines doors.new }
{
    reserve(due, awake)?;
    is_in_order(due);
    doors.serials_rise();
    let Some(first) = due.take(moment) else {
        return Ok(None);
    };
    // A machine that is no door is noted no more.
    let Some(place) = doors.place_of_id(first.machine) else {
        return Ok(Some(0));
    };
    let Ok(answer) = doors.tell_at(place, Command::Tick(moment)) else {
        // The door is as it was, and so is what is noted of it.
        due.note(first.machine, first.moment);
        return Err(AllocError);
    };
    note_at(doors, due, awake, place, moment + 1);
    Ok(Some(let_go(answer).expired))
}

/// Ticks the doors of which something is due by a moment, and answers how many time-outs expire.
pub(crate) fn tick_due(
    doors: &mut Doors,
    due: &mut DueQueue,
    awake: &mut DueQueue,
    late: u64,
    moment: u64,
) -> Result<u128, AllocError>
    requires order { late ≤ moment }
    requires early { moment < 2 ^ 63 }
    requires watched { AreWatched late false due.old.machines awake.old.machines doors.old }
    ensures expired { IfOk result (λ expired. expired ≡ all_expired_of moment doors.old) }
    ensures after { OnOk result (AreAfter moment due.new.machines) }

    // Whatever the answer is.
    ensures ticked { ticked_doors moment doors.new ≡ ticked_doors moment doors.old }
    ensures same_labels { SameLabels doors.old doors.new }
    ensures watched { AreWatched late false due.new.machines awake.new.machines doors.new }
{
    is_in_order(due);
    let mut expired = 0;
    while let Some(count) = tick_first(doors, due, awake, late, moment)? {
        expired += u128::from(count);
    }
    Ok(expired)
}

/// Takes out the first machine.
fn take_first(queue: &mut DueQueue) -> Option<MachineId>
    ensures first { result ≡ first_of queue.old.machines }
    ensures others { queue.new.machines ≡ others_of queue.old.machines }
    ensures reserved { queue.new.reserved ≡ queue.old.reserved }
{
    let moment = queue.first()?;
    let first = queue.take(moment)?;
    Some(first.machine)
}

/// The place of the door of an id, if that is ready.
fn ready_place(doors: &Doors, id: MachineId) -> Option<usize>
    ensures place { IfSome result (IsFirst (has_id id) doors.now) }
    ensures ready { IfSome result (λ place. (d : NamedDoor) → is_ready_door (slice_index_or doors.now place d) ≡ true) }
    ensures none { IfNone result ((k : ℕ) (d : NamedDoor) → k < length doors.now → (slice_index_or doors.now k d).machine.id ≡ id → is_ready_door (slice_index_or doors.now k d) ≡ false) }
{
    doors.serials_rise();
    let place = doors.place_of_id(id)?;
    if doors.is_ready_at(place) {
        Some(place)
    } else {
        None
    }
}

/// The place of the first door that is ready, if one is. A door that is awake and not ready is let sleep.
pub(crate) fn first_ready(doors: &Doors, awake: &mut DueQueue) -> Result<Option<usize>, AllocError>
    requires awake { AreAwake awake.old.machines doors.now }
    requires by_serial { AreBySerial awake.old.machines }
    ensures first { IfOk result (λ place. IfSome place (IsFirst is_ready_door doors.now)) }
    ensures none { IfOk result (λ place. IfNone place (list_any is_ready_door doors.now ≡ false)) }

    // Whatever the answer is.
    ensures awake { AreAwake awake.new.machines doors.now }
    ensures by_serial { AreBySerial awake.new.machines }
{
    doors.serials_rise();
    awake.reserve(1)?;
    is_in_order(awake);
    while let Some(machine) = take_first(awake) {
        if let Some(place) = ready_place(doors, machine) {
            awake.note(machine, machine.serial);
            return Ok(Some(place));
        }
    }
    Ok(None)
}
