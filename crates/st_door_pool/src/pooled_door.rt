//! A door that workers serve, as its script has it.
ghost use Rattle.std.specs.Prelude.{◌≡◌, IfOk, OnErr};
ghost use Rattle.st_events.specs.declared.refusal.Refusal.TheVariants.{NoMemory};

use st_client::{
    Collected, Machine, MachineId, Port, Reason, Refusal, RequestId, Wake, cast, check,
    send_request,
};
use st_door::{Door, DoorContent, DoorData, DoorState, ended_status, status};
use st_lock::Look;
use st_wake::schedule;
use std::alloc::{AllocError, Global};
use std::sync::{Arc, Wait};

/// How many entries the journal of a door may have, however few events wait at the door.
const JOURNAL_LIMIT: u64 = 3;

/// Over how many entries one walks in the time in which one event that waits is copied, about.
const COPY_COST: u64 = 16;

/// A door that workers serve: the port through which its script posts, and what the script knows of the door's journal,
/// which nothing reads. Each call takes its memory first; where there is none, the script ends.
#[derive(Drop)]
pub(crate) struct PooledDoor {
    port: Port<Door>,
    /// How many entries the journal has. Between looks that is an estimate: a turn that was made without the script's
    /// knowing comes in at the next look.
    told: u64,
    /// How many commands the door had taken when its journal was cut.
    cut: u64,
}

impl PooledDoor {
    /// A door that has just started.
    pub(crate) fn new<R: Wait>(
        rt: &R,
        machine: &Arc<Machine<Door>>,
    ) -> Result<PooledDoor, AllocError> {
        match Machine::port(machine, rt) {
            Ok(port) => Ok(PooledDoor {
                port,
                told: 0,
                cut: 0,
            }),
            Err(_) => Err(AllocError),
        }
    }

    /// Casts a button, and answers why that is refused, if it is. The post is an entry, and so is its turn.
    pub(crate) fn press<R: Wait, W: Wake>(
        &mut self,
        rt: &R,
        wake: &W,
        digit: u8,
    ) -> Result<Option<Refusal>, AllocError> {
        self.cast(rt, wake, DoorContent::Button(digit), 2)
    }

    /// Has the door send a button to a machine, and answers why that is refused, if it is. The post is an entry, and so are its
    /// turn and the message that is taken out.
    pub(crate) fn relay<R: Wait, W: Wake>(
        &mut self,
        rt: &R,
        wake: &W,
        target: MachineId,
        digit: u8,
    ) -> Result<Option<Refusal>, AllocError> {
        self.cast(rt, wake, DoorContent::Relay(target, digit), 3)
    }

    /// Casts content of which so many entries come, and answers why that is refused, if it is.
    fn cast<R: Wait, W: Wake>(
        &mut self,
        rt: &R,
        wake: &W,
        content: DoorContent,
        entries: u64,
    ) -> Result<Option<Refusal>, AllocError> {
        match cast(rt, &mut self.port, wake, content) {
            Ok(sent) => {
                self.count(entries);
                if sent.left.is_some() {
                    return Err(AllocError);
                }
                Ok(None)
            }
            Err(refused) => Ok(Some(unless_memory(refused.refusal)?)),
        }
    }

    /// Asks how long the code is, and answers the request, or why that is refused. The post is an entry, and so are its
    /// turn and the collect.
    pub(crate) fn ask<R: Wait, W: Wake>(
        &mut self,
        rt: &R,
        wake: &W,
    ) -> Result<Result<RequestId<Door>, Refusal>, AllocError> {
        match send_request(rt, &mut self.port, wake, DoorContent::CodeLength) {
            Ok((id, left)) => {
                self.count(3);
                if left.is_some() {
                    return Err(AllocError);
                }
                Ok(Ok(id))
            }
            Err(refused) => Ok(Err(unless_memory(refused.refusal)?)),
        }
    }

    /// Tells the door a moment, in milliseconds, and answers how many time-outs expire: none where that is refused. The tick
    /// is an entry, and so is the turn of each.
    pub(crate) fn tick<R: Wait, W: Wake>(
        &mut self,
        rt: &R,
        wake: &W,
        moment: u64,
    ) -> Result<u64, AllocError> {
        match self.port.machine().tick(rt, moment) {
            Ok(ticked) => {
                self.count(1);
                self.count(ticked.expired);
                if schedule(rt, wake, ticked.wake).is_some() {
                    return Err(AllocError);
                }
                Ok(ticked.expired)
            }
            Err(Refusal::NoMemory) => Err(AllocError),
            Err(_) => Ok(0),
        }
    }

    /// Ends the door, and answers why that is refused, if it is.
    pub(crate) fn stop<R: Wait>(
        &mut self,
        rt: &R,
        reason: Reason,
    ) -> Result<Option<Refusal>, AllocError> {
        match self.port.machine().stop(rt, reason) {
            Ok(_word) => Ok(None),
            Err(refusal) => Ok(Some(unless_memory(refusal)?)),
        }
    }

    /// The moment at which the door's next time-out is due, while nobody serves it. Of one that has ended none comes.
    pub(crate) fn next_due<R: Wait>(&self, rt: &R) -> Option<u64> {
        let machine = self.port.machine();
        if machine.ended(rt).is_some() {
            return None;
        }
        machine.next_due(rt)
    }

    /// The status of the door, while nobody serves it.
    pub(crate) fn status<R: Wait>(
        &mut self,
        rt: &R,
        alloc: Global,
        name: &str,
    ) -> Result<String, AllocError> {
        let look = self.look(rt)?;
        if let Some((reason, word)) = look.ended {
            return ended_status(alloc, name, reason, word);
        }
        status(
            alloc,
            name,
            look.state,
            look.held.buttons.len(),
            look.waiting,
        )
    }

    /// Cuts the journal, while nobody serves the door, where it is long.
    pub(crate) fn shorten<R: Wait>(&mut self, rt: &R) -> Result<(), AllocError> {
        if self.told > JOURNAL_LIMIT {
            drop(self.look(rt)?);
        }
        Ok(())
    }

    /// What is seen of the door. Where the journal is long then, it is cut.
    fn look<R: Wait>(&mut self, rt: &R) -> Result<Look<DoorState, DoorData>, AllocError> {
        let Ok(look) = self.port.look(rt) else {
            return Err(AllocError);
        };
        self.told = look.entries.saturating_sub(self.cut);
        if is_long(self.told, look.waiting as u64) {
            if self.port.machine().cut(rt).is_err() {
                return Err(AllocError);
            }
            self.told = 0;
            self.cut = look.entries;
        }
        Ok(look)
    }

    /// Counts entries.
    fn count(&mut self, entries: u64) {
        self.told = self.told.saturating_add(entries);
    }
}

/// Whether a journal is to be cut. A look walks the journal, and a cut copies what waits, which costs much more for each: so
/// a journal is cut where it has more entries than events wait, and where many wait, sooner: once its square is greater
/// than so many times their number. Then both stay near the square root of that number for each line.
fn is_long(entries: u64, waiting: u64) -> bool {
    let most = waiting.saturating_mul(waiting.min(COPY_COST));
    entries > JOURNAL_LIMIT && entries.saturating_mul(entries) > most
}

/// A refusal, which a line may have; but where memory is wanted and there is none, no line has it.
pub(crate) fn unless_memory(refusal: Refusal) -> Result<Refusal, AllocError>
    ensures refusal { IfOk result (λ same. same ≡ refusal) }

    ensures memory { OnErr result (refusal ≡ NoMemory) }
{
    match refusal {
        Refusal::NoMemory => Err(AllocError),
        _ => Ok(refusal),
    }
}

/// The length that a reply told, while nobody serves the door that was asked.
pub(crate) fn told_length<R: Wait>(
    rt: &R,
    id: &RequestId<Door>,
) -> Result<Option<usize>, AllocError> {
    match check(rt, id) {
        Ok(Collected::Reply(DoorContent::Length(digits))) => Ok(Some(digits)),
        Ok(_) => Ok(None),
        Err(_) => Err(AllocError),
    }
}
