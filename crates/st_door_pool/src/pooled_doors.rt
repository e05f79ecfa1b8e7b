//! The doors that workers serve, as their script has them.

use crate::pooled_door::PooledDoor;
use st_client::{MachineId, Wake};
use st_due::DueQueue;
use std::alloc::{AllocError, Global};
use std::sync::Wait;

/// How many doors are ticked before the workers rest, so that no more journals than these are long at once.
const PART: usize = 1_024;

/// The doors that workers serve, each at the slot of its id, which no two doors have at once. Those of which a time-out is to
/// come are noted at the moment at which it is due, so that a tick goes to no other.
#[derive(Drop)]
pub(crate) struct PooledDoors {
    places: Vec<Option<PooledDoor>>,
    due: DueQueue,
    /// Those that were ticked and are to be noted anew, once the workers rest.
    ticked: Vec<MachineId>,
}

impl PooledDoors {
    /// No doors. It takes no memory.
    pub(crate) fn new(alloc: Global) -> PooledDoors {
        PooledDoors {
            places: Vec::new(alloc),
            due: DueQueue::new(alloc),
            ticked: Vec::new(alloc),
        }
    }

    /// Puts in a door that has just started.
    pub(crate) fn put(&mut self, id: MachineId, door: PooledDoor) -> Result<(), AllocError> {
        if id.slot < self.places.len() {
            self.places[id.slot] = Some(door);
            return Ok(());
        }
        // A new slot is the next one.
        self.places.push(Some(door))?;
        Ok(())
    }

    /// The door of an id.
    pub(crate) fn get_mut(&mut self, id: MachineId) -> Option<&mut PooledDoor> {
        self.places.get_mut(id.slot)?.as_mut()
    }

    /// Takes out the door of an id.
    pub(crate) fn remove(&mut self, id: MachineId) {
        if id.slot < self.places.len() {
            self.places[id.slot] = None;
        }
        self.due.forget(id);
    }

    /// Ticks doors of which something is due by a moment, but no more than a part of them, and answers how many time-outs expire.
    /// Each is to be settled, once the workers rest. It answers nothing where no door is due.
    pub(crate) fn tick<R: Wait, W: Wake>(
        &mut self,
        rt: &R,
        wake: &W,
        now: u64,
    ) -> Result<Option<u128>, AllocError> {
        let mut expired = 0u128;
        for _ in 0..PART {
            let Some(first) = self.due.take(now) else {
                break;
            };
            self.ticked.push(first.machine)?;
            let count = self.tick_one(rt, wake, first.machine, now)?;
            expired = expired.saturating_add(u128::from(count));
        }
        if self.ticked.is_empty() {
            return Ok(None);
        }
        Ok(Some(expired))
    }

    /// Ticks the door of an id, and answers how many time-outs expire.
    fn tick_one<R: Wait, W: Wake>(
        &mut self,
        rt: &R,
        wake: &W,
        id: MachineId,
        now: u64,
    ) -> Result<u64, AllocError> {
        match self.get_mut(id) {
            Some(door) => door.tick(rt, wake, now),
            None => Ok(0),
        }
    }

    /// Settles the doors that were ticked at a moment, while the workers rest. None of them is due at it again.
    pub(crate) fn settle<R: Wait>(&mut self, rt: &R, now: u64) -> Result<(), AllocError> {
        for _ in 0..self.ticked.len() {
            let Some(id) = self.ticked.pop() else {
                break;
            };
            self.settle_one(rt, id, now.saturating_add(1))?;
        }
        Ok(())
    }

    /// Settles the door of an id, which may have had a turn, while the workers rest: its journal is cut where it is long, and it
    /// is noted when its next time-out is due, no earlier than at `least`.
    pub(crate) fn settle_one<R: Wait>(
        &mut self,
        rt: &R,
        id: MachineId,
        least: u64,
    ) -> Result<(), AllocError> {
        let Some(door) = self.get_mut(id) else {
            return Ok(());
        };
        door.shorten(rt)?;
        match door.next_due(rt) {
            Some(moment) => {
                self.due.reserve(1)?;
                self.due.note(id, moment.max(least));
            }
            None => self.due.forget(id),
        }
        Ok(())
    }
}
