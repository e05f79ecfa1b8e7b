//! A script whose doors are served by workers, between two of its lines.
ghost use Rattle.std.specs.Prelude.{◌≡◌, ◌≤◌, ◌<◌, ◌^◌};

use crate::Runtime;
use crate::clock::Clock;
use crate::door_hall::DoorHall;
use crate::pooled_door::{PooledDoor, told_length, unless_memory};
use crate::pooled_doors::PooledDoors;
use st_core::MOMENT_LIMIT;
use st_door::{Digits, Door, DoorContent, Effect, Line, PlainText, code_length, expired, removed};
use st_hall::{MachineId, Reason, Refusal, Started, Token};
use st_pool::{Gate, Machines, Pool, Scheduler};
use st_wake::schedule;
use std::alloc::{AllocError, Global};
use std::sync::Arc;

/// Starts workers that serve these machines at the moment of a clock.
fn started<R: Runtime, M: Machines<Content = DoorContent> + Drop + Send + Sync + 'static>(
    rt: R,
    alloc: Global,
    workers: usize,
    machines: &Arc<M>,
    clock: &Arc<Clock>,
) -> Result<Pool<R, DoorContent>, AllocError>
    requires { (1 ≤ workers) × (workers ≤ 16) }
{
    Pool::start(rt, alloc, workers, machines, clock)
}

/// A script between two of its lines: the workers, who rest then, their clock, which has the script's moment, the hall of
/// its doors, which finds them by name, and what the script knows of each. A script that is let go ends its threads first.
#[derive(Drop)]
pub(crate) struct PooledScript<R: Runtime> {
    rt: R,
    alloc: Global,
    pool: Pool<R, DoorContent>,
    scheduler: Scheduler,
    clock: Arc<Clock>,
    served: Arc<DoorHall<R>>,
    doors: PooledDoors,
}

impl<R: Runtime> PooledScript<R> {
    /// A script before its first line, with 1 to 16 workers. Where there is no memory for them or no thread, none is left
    /// running.
    pub(crate) fn start(rt: R, alloc: Global, workers: usize) -> Result<PooledScript<R>, AllocError>
        requires { (1 ≤ workers) × (workers ≤ 16) }
    {
        let served = Arc::new(alloc, DoorHall::new(rt, alloc)?)?;
        let clock = Arc::new(alloc, Clock::new())?;
        let pool = started(rt, alloc, workers, &served, &clock)?;
        let scheduler = pool.scheduler()?;
        Ok(PooledScript {
            rt,
            alloc,
            pool,
            scheduler,
            clock,
            served,
            doors: PooledDoors::new(alloc),
        })
    }

    /// Does what a line says, waits until the workers rest, and answers what it brings about. A refused line changes
    /// nothing.
    pub(crate) fn obey(&mut self, line: Line) -> Result<Effect, AllocError> {
        match line {
            Line::Blank => Ok(Effect::Silent),
            Line::Malformed => Ok(Effect::Malformed),
            Line::New { name, code } => self.obey_new(name, code),
            Line::Button { name, digit } => self.obey_button(name.as_str(), digit),
            Line::Show { name } => self.obey_show(name.as_str()),
            Line::At { moment } => self.obey_at(moment),
            Line::Stop { name, reason } => self.obey_stop(name.as_str(), reason),
            Line::Remove { name } => self.obey_remove(name.as_str()),
            Line::Length { name } => self.obey_length(name.as_str()),
            Line::Relay {
                name,
                target,
                digit,
            } => self.obey_relay(name.as_str(), target.as_str(), digit),
            Line::Names => self.obey_names(),
        }
    }

    /// Starts a door under a name, and answers its status.
    fn obey_new(&mut self, name: PlainText, code: Digits) -> Result<Effect, AllocError> {
        let now = self.clock.now();
        match self
            .served
            .hall
            .start(Some(name.as_str()), Door, &code, now)
        {
            Ok(Started::Running { id, wake }) => self.register(name, id, wake),
            Ok(Started::Ignored) => unreachable!(),
            Ok(Started::Stopped(_reason)) => unreachable!(),
            Err(refused) => Ok(Effect::Refuses(unless_memory(refused.refusal)?)),
        }
    }

    /// Registers a door that has just started, and answers its status.
    fn register(
        &mut self,
        name: PlainText,
        id: MachineId,
        wake: Option<Token>,
    ) -> Result<Effect, AllocError> {
        let Ok(machine) = self.served.hall.machine(id) else {
            return Err(AllocError);
        };
        let door = PooledDoor::new(&self.rt, &machine)?;
        self.doors.put(id, door)?;
        if schedule(&self.rt, &self.scheduler, wake).is_some() {
            return Err(AllocError);
        }
        self.show(name.as_str(), id)
    }

    /// The id of the door of a name.
    fn find(&self, name: &str) -> Option<MachineId> {
        self.served.hall.whereis(name).ok()
    }

    /// Waits until the workers rest. Where a turn found no memory, the script ends.
    fn rest(&self) -> Result<(), AllocError> {
        self.pool.drain();
        if self.served.is_out_of_memory() {
            return Err(AllocError);
        }
        Ok(())
    }

    /// Answers the status of a door, once the workers rest.
    fn show(&mut self, name: &str, id: MachineId) -> Result<Effect, AllocError> {
        self.rest()?;
        let Some(door) = self.doors.get_mut(id) else {
            return Ok(Effect::Refuses(Refusal::NoSuchMachine));
        };
        let text = door.status(&self.rt, self.alloc, name)?;
        Ok(Effect::Printed(PlainText::from(text)))
    }

    /// Answers the status of a door that may have had a turn, once the workers rest, and settles it.
    fn show_settled(&mut self, name: &str, id: MachineId) -> Result<Effect, AllocError> {
        let effect = self.show(name, id)?;
        self.doors.settle_one(&self.rt, id, 0)?;
        Ok(effect)
    }

    /// Presses a button of the door of a name, and answers its status.
    fn obey_button(&mut self, name: &str, digit: u8) -> Result<Effect, AllocError> {
        let Some(id) = self.find(name) else {
            return Ok(Effect::Refuses(Refusal::NoSuchName));
        };
        let Some(door) = self.doors.get_mut(id) else {
            return Ok(Effect::Refuses(Refusal::NoSuchMachine));
        };
        if let Some(refusal) = door.press(&self.rt, &self.scheduler, digit)? {
            return Ok(Effect::Refuses(refusal));
        }
        self.show_settled(name, id)
    }

    /// Has the door of a name send a button to that of another, and answers the status of the other.
    fn obey_relay(&mut self, name: &str, target: &str, digit: u8) -> Result<Effect, AllocError> {
        let Some(id) = self.find(name) else {
            return Ok(Effect::Refuses(Refusal::NoSuchName));
        };
        let Some(aim) = self.find(target) else {
            return Ok(Effect::Refuses(Refusal::NoSuchName));
        };
        let Some(door) = self.doors.get_mut(id) else {
            return Ok(Effect::Refuses(Refusal::NoSuchMachine));
        };
        if let Some(refusal) = door.relay(&self.rt, &self.scheduler, aim, digit)? {
            return Ok(Effect::Refuses(refusal));
        }
        let effect = self.show_settled(target, aim)?;
        self.doors.settle_one(&self.rt, id, 0)?;
        Ok(effect)
    }

    /// Ends the door of a name, and answers its status.
    fn obey_stop(&mut self, name: &str, reason: Reason) -> Result<Effect, AllocError> {
        let Some(id) = self.find(name) else {
            return Ok(Effect::Refuses(Refusal::NoSuchName));
        };
        let Some(door) = self.doors.get_mut(id) else {
            return Ok(Effect::Refuses(Refusal::NoSuchMachine));
        };
        if let Some(refusal) = door.stop(&self.rt, reason)? {
            return Ok(Effect::Refuses(refusal));
        }
        self.show_settled(name, id)
    }

    /// Answers the status of the door of a name.
    fn obey_show(&mut self, name: &str) -> Result<Effect, AllocError> {
        match self.find(name) {
            Some(id) => self.show(name, id),
            None => Ok(Effect::Refuses(Refusal::NoSuchName)),
        }
    }

    /// Lets time pass up to a moment, and answers how many time-outs expire. A moment before the script's counts as the
    /// script's. It goes to the doors of which something is due: the others see it at their next turn.
    fn obey_at(&mut self, moment: u64) -> Result<Effect, AllocError> {
        if moment >= MOMENT_LIMIT {
            return Ok(Effect::Refuses(Refusal::Moment));
        }
        let now = self.clock.now().max(moment);
        self.clock.set(now);
        let count = self.tick(now)?;
        let text = expired(self.alloc, now, count)?;
        Ok(Effect::Printed(PlainText::from(text)))
    }

    /// Ticks the doors of which something is due by a moment, part by part, and answers how many time-outs expire. No door's
    /// time-out concerns another door, so it is as if all were ticked first.
    fn tick(&mut self, now: u64) -> Result<u128, AllocError> {
        let mut count = 0u128;
        for _ in 0..u64::MAX {
            let Some(expired) = self.doors.tick(&self.rt, &self.scheduler, now)? else {
                break;
            };
            count = count.saturating_add(expired);
            self.rest()?;
            self.doors.settle(&self.rt, now)?;
        }
        Ok(count)
    }

    /// Takes out the door of a name, which has ended and has no message left.
    fn obey_remove(&mut self, name: &str) -> Result<Effect, AllocError> {
        let Some(id) = self.find(name) else {
            return Ok(Effect::Refuses(Refusal::NoSuchName));
        };
        if let Err(refusal) = self.served.hall.remove_stopped(id) {
            return Ok(Effect::Refuses(refusal));
        }
        self.doors.remove(id);
        let text = removed(self.alloc, name)?;
        Ok(Effect::Printed(PlainText::from(text)))
    }

    /// Asks the door of a name how long its code is, and answers what it replies.
    fn obey_length(&mut self, name: &str) -> Result<Effect, AllocError> {
        let Some(id) = self.find(name) else {
            return Ok(Effect::Refuses(Refusal::NoSuchName));
        };
        let Some(door) = self.doors.get_mut(id) else {
            return Ok(Effect::Refuses(Refusal::NoSuchMachine));
        };
        let request = match door.ask(&self.rt, &self.scheduler)? {
            Ok(request) => request,
            Err(refusal) => return Ok(Effect::Refuses(refusal)),
        };
        self.rest()?;
        let digits = told_length(&self.rt, &request)?;
        self.doors.settle_one(&self.rt, id, 0)?;
        let text = code_length(self.alloc, name, digits)?;
        Ok(Effect::Printed(PlainText::from(text)))
    }

    /// Answers the names, in order of registration.
    fn obey_names(&self) -> Result<Effect, AllocError> {
        let mut text = String::from_str(self.alloc, "names")?;
        for (name, _id) in &self.served.hall.names(self.alloc)? {
            text.push_str(" ")?;
            text.push_str(name.as_str())?;
        }
        text.push_str("\n")?;
        Ok(Effect::Printed(PlainText::from(text)))
    }
}
