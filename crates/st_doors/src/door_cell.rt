//! A door of a script: its machine in a cell of its own.
ghost use Rattle.std.specs.Prelude.{◌≡◌, ◌≤◌, ◌^◌, [], true, false, is_some, IfOk, IfErr, OnOk, OnErr, MatchResult};
ghost use Rattle.std.specs.Io.KnownBytes.{Appends};
ghost use Rattle.st_core.specs.Run.{step_of};
ghost use Rattle.st_doors.specs.Doors.{door_at_first, door_callbacks, told_kept, serves};
ghost use Rattle.st_cell.specs.Calls.{opened as with_port};
ghost use Rattle.st_cell.specs.Cell.{IsOpen, cell_at_first};
ghost use Rattle.st_doors.specs.Entries.{machine_in, past_in};
ghost use Rattle.st_doors.specs.Late.{IsQuietUntil, is_late};
ghost use Rattle.st_doors.specs.Settling.{CanServe, message_from, served_kept};
ghost use Rattle.st_doors.specs.ScriptFault.{IsOfInput, write_failures_after};
ghost use Rattle.st_doors.specs.Streams.{AppendsFront};
ghost use Rattle.st_doors.specs.Traces.{trace_by};

use crate::answers::DoorAnswer;
use crate::cells::{make_ready, serve, tell};
use crate::past::{Past, journal_of};
use crate::service::Service;
use crate::tracing::write_trace;
use crate::{Door, DoorContent, ScriptFault, Sink};
use st_cell::{Cell, a_cell_is_journaled};
use st_core::{Command, Core, MOMENT_LIMIT};
use st_events::Message;
use std::alloc::{AllocError, Global};
use std::marker::Model;

/// A door of a script: its machine in a cell, with one port, and where its history is kept, what it was told before its
/// journal begins. Contracts see the machine, and the history where it is kept. Cell and past lie in boxes, so that a door is
/// small to hand on.
///
/// Ours: docs/SCRIPTS.md.
#[derive(Drop)]
pub struct DoorCell {
    cell: Box<Cell<Door>>,
    past: Option<Box<Past>>,
}

impl Model for DoorCell {
    ghost use Rattle.st_doors.specs.Doors.{KeptDoor};
    ghost use Rattle.st_doors.specs.Entries.{IsDoorCell, door_in, past_in};

    ghost Value = { KeptDoor };

    ghost view = { λ door. door_in (past_in door.past) door.cell.value };

    ghost invariant = { λ door. IsDoorCell (past_in door.past) door.cell.value };
}

/// What a door was told before its journal begins: nothing yet, if its history is kept.
fn past_at_first(
    alloc: Global,
    core: &Core<Door>,
    keeps: bool,
) -> Result<Option<Box<Past>>, AllocError>
    ensures { IfOk result (λ past. past_in past ≡ (door_at_first keeps core.now.machine).history) }
{
    if !keeps {
        return Ok(None);
    }
    Ok(Some(Box::new(alloc, Past::new(alloc, core.latest()))?))
}

/// Puts a door's machine into a cell.
fn celled(alloc: Global, core: Core<Door>) -> Result<Cell<Door>, AllocError>
    ensures { IfOk result (λ cell. cell ≡ cell_at_first core) }
{
    match Cell::new(alloc, core).ok() {
        Some((cell, _token)) => Ok(cell),
        None => Err(AllocError),
    }
}

/// Puts a cell into a box.
fn boxed(alloc: Global, cell: Cell<Door>) -> Result<Box<Cell<Door>>, AllocError>
    ensures { IfOk result (λ boxed. boxed.value ≡ cell) }
{
    Ok(Box::new(alloc, cell)?)
}

/// Opens a port of a cell.
fn open(cell: &mut Cell<Door>) -> Result<(), AllocError>
    ensures { OnOk result (cell.new ≡ (with_port cell.old).1) }
{
    match cell.port() {
        Ok(_number) => Ok(()),
        Err(_refusal) => Err(AllocError),
    }
}

/// Puts a door's machine into a cell, and opens its port.
fn opened(alloc: Global, core: Core<Door>) -> Result<Box<Cell<Door>>, AllocError>
    ensures machine { IfOk result (λ cell. machine_in cell.value ≡ core.machine) }
    ensures journal { IfOk result (λ cell. cell.value.journal ≡ []) }
    ensures count { IfOk result (λ cell. cell.value.scheduled.count ≡ 0) }
    ensures port { IfOk result (λ cell. IsOpen 1 cell.value) }
{
    let cell = celled(alloc, core)?;
    let mut cell = boxed(alloc, cell)?;
    open(&mut cell)?;
    Ok(cell)
}

impl DoorCell {
    /// Puts a door's machine into a cell, and opens its port. Its history is kept from now on, or it is not.
    ///
    /// Ours: docs/SCRIPTS.md.
    pub fn new(alloc: Global, core: Core<Door>, keeps: bool) -> Result<DoorCell, AllocError>
        ensures { IfOk result (λ door. door ≡ door_at_first keeps core.machine) }
    {
        let cell = opened(alloc, core)?;
        let past = past_at_first(alloc, cell.core(), keeps)?;
        Ok(DoorCell { cell, past })
    }

    /// The machine, to be read.
    pub(crate) fn core(&self) -> &Core<Door>
        ensures { result.now.machine ≡ self.now.machine }
    {
        self.cell.core()
    }

    /// Says whether the door's history is kept.
    pub(crate) fn is_traced(&self) -> bool
        ensures { result ≡ is_some self.now.history }
    {
        self.past.is_some()
    }

    /// Says whether the door has still to see a moment. One that has ended sees none, and one whose history is kept has seen
    /// each.
    pub(crate) fn is_late(&self, moment: u64) -> bool
        ensures { result ≡ is_late moment self.now }
    {
        let core = self.core();
        self.past.is_none() && core.ended().is_none() && core.latest() < moment
    }

    /// A moment before which nothing of the door is due. It is 0 where the history is kept, for there each tick counts.
    pub(crate) fn quiet_until(&self) -> u64
        ensures bounded { result ≤ 2 ^ 63 }
        ensures quiet { IsQuietUntil result self.now }
    {
        if self.past.is_some() {
            return 0;
        }
        let core = self.core();
        if core.ended().is_some() {
            return MOMENT_LIMIT;
        }
        match core.next_due() {
            None => MOMENT_LIMIT,
            Some(due) => {
                if core.latest() < due {
                    due.min(MOMENT_LIMIT)
                } else {
                    0
                }
            }
        }
    }

    /// Tells the door a command that is no turn and no take-out, and answers its answer. Where memory is wanted and there is none, the
    /// door stays.
    pub(crate) fn tell(&mut self, command: Command<DoorContent>) -> Result<DoorAnswer, AllocError>
        requires { serves command ≡ false }
        ensures answer { IfOk result (λ answer. answer ≡ (step_of door_callbacks self.old.machine command).0) }
        ensures told { OnOk result (self.new ≡ told_kept command self.old) }

        ensures unchanged { OnErr result (self.new ≡ self.old) }
    {
        make_ready(&mut *self.cell, &mut self.past)?;
        tell(&mut *self.cell, command)
    }

    /// Serves the door, and answers the message that comes out. Where memory is wanted and there is none, the door stays.
    pub(crate) fn serve(
        &mut self,
        service: Service,
    ) -> Result<Option<Message<DoorContent>>, AllocError>
        requires { CanServe service self.old.machine }
        ensures message { IfOk result (λ message. message ≡ message_from service self.old.machine) }
        ensures served { OnOk result (self.new ≡ served_kept service self.old) }

        ensures unchanged { OnErr result (self.new ≡ self.old) }
    {
        make_ready(&mut *self.cell, &mut self.past)?;
        serve(&mut *self.cell, service)
    }

    /// Writes the door's trace under a name. It is nothing where the history is not kept.
    pub(crate) fn write_trace<W: Sink>(
        &self,
        alloc: Global,
        name: &str,
        writer: &mut W,
    ) -> Result<(), ScriptFault>
        ensures written { OnOk result (Appends (W.held writer.old) (W.held writer.new) (trace_by name.now self.now.machine self.now.history)) }

        ensures faults { IfErr result (λ fault. IsOfInput fault → ⊥) }
        ensures failures { MatchResult result (λ _. W.failures writer.new ≡ W.failures writer.old)
            (λ fault. W.failures writer.new ≡ write_failures_after fault (W.failures writer.old)) }
        ensures front { OnErr result (AppendsFront (W.held writer.old) (W.held writer.new) (trace_by name.now self.now.machine self.now.history)) }
    {
        let Some(past) = &self.past else {
            return Ok(());
        };
        a_cell_is_journaled(&*self.cell);
        let id = self.core().id();
        write_trace(alloc, id, name, past, journal_of(&*self.cell), writer)
    }
}
