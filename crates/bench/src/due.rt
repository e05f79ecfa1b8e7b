//! Machines that fall due, one after another.
use st_core::{MachineId, Refusal};
use st_due::DueQueue;
use std::alloc::Global;

/// The machine of a slot.
fn machine(slot: u32) -> MachineId {
    MachineId {
        slot: slot as usize,
        serial: 1,
    }
}

/// Notes a machine.
fn note(queue: &mut DueQueue, machine: MachineId, moment: u64) -> Result<(), Refusal> {
    queue.reserve(1)?;
    queue.note(machine, moment);
    Ok(())
}

/// So many machines, each due a millisecond after the one before it.
fn due_in_turn(alloc: Global, machines: u32) -> Result<DueQueue, Refusal> {
    let mut queue = DueQueue::new(alloc);
    for slot in 0..machines {
        note(&mut queue, machine(slot), slot as u64)?;
    }
    Ok(queue)
}

/// Takes the machine that is due at a moment, and notes it again for so much later. Answers 1 where it was not due before.
fn take_and_note(queue: &mut DueQueue, now: u64, later: u32) -> Result<u64, Refusal> {
    let Some(due) = queue.take(now) else {
        return Ok(0);
    };
    note(queue, due.machine, now.saturating_add(later as u64))?;
    Ok(if due.moment == now { 1 } else { 0 })
}

/// Takes a machine at each moment up to so many, of so many machines, and notes it again, to come behind all others. Answers
/// how many were taken when they were due.
pub fn take_and_note_each(alloc: Global, count: u32, machines: u32) -> Result<u64, Refusal> {
    let mut queue = due_in_turn(alloc, machines)?;
    let mut taken = 0u64;
    for now in 0..count {
        taken = taken.saturating_add(take_and_note(&mut queue, now as u64, machines)?);
    }
    Ok(taken)
}
