//! The doors of a script, by name, in order of registration.
ghost use Rattle.std.specs.Prelude.{◌≡◌, ◌+◌, ◌<◌, ◌≤◌, ◌^◌, false, [], ◌∷◌, ◌++◌, None, find, IfOk, IfErr, OnOk, OnErr, MatchResult, IfSome, IfNone, length, slice_set, slice_index_or, string_bytes};
ghost use Rattle.std.specs.Io.KnownBytes.{Appends};
ghost use Rattle.st_doors.specs.Doors.{NamedDoor, door_named, IsFirst, has_name, door_of, without_door, is_ready_door, is_over, kept_of, told_of, told_door, serves};
ghost use Rattle.st_doors.specs.Late.{IsQuietUntil, is_late};
ghost use Rattle.st_doors.specs.Numbers.{DoSerialsRise};
ghost use Rattle.st_doors.specs.Printing.{status_of, names_text};
ghost use Rattle.st_core.specs.Choice.{has_message_of};
ghost use Rattle.st_doors.specs.Settling.{CanServe, has_id, message_from, served_door};
ghost use Rattle.st_doors.specs.ScriptFault.{IsOfInput, write_failures_after};
ghost use Rattle.st_doors.specs.Streams.{AppendsFront};
ghost use Rattle.st_doors.specs.Traces.{trace_of_door};

use crate::answers::DoorAnswer;
use crate::door_cell::DoorCell;
use crate::door_table::DoorTable;
use crate::numbers::Numbers;
use crate::printing::{ended_status, status};
use crate::service::Service;
use crate::{DoorContent, ScriptFault, Sink};
use st_core::Command;
use st_events::{MachineId, Message};
use std::alloc::{AllocError, Global};
use std::marker::Model;

/// The doors of a script. Contracts see the list of the doors with their names.
///
/// Each door has a number, the serial of its id, under which it stands in the table; a name's number is found by the order of
/// names. So whoever picks the names cannot make a look-up slow. The numbers rise in the order of registration.
#[derive(Drop)]
pub(crate) struct Doors {
    alloc: Global,
    entries: DoorTable,
    numbers: Numbers,
    next: u64,
}

impl Model for Doors {
    ghost use Rattle.std.specs.Prelude.{List};
    ghost use Rattle.st_doors.specs.Doors.{NamedDoor};
    ghost use Rattle.st_doors.specs.Numbers.{doors_of_numbered, AreNumbered, AreSerials, HasNumbers};

    ghost Value = { List NamedDoor };

    ghost view = { λ doors. doors_of_numbered doors.entries };

    ghost invariant = { λ doors. HasNumbers doors.numbers.numbers doors.entries × AreNumbered 0 doors.entries doors.next × AreSerials doors.entries };
}

impl Doors {
    /// No doors.
    pub(crate) fn new(alloc: Global) -> Doors
        ensures { result ≡ [] }
    {
        Doors {
            alloc,
            entries: DoorTable::new(alloc),
            numbers: Numbers::new(alloc),
            next: 0,
        }
    }

    /// How many doors there are.
    pub(crate) fn len(&self) -> usize
        ensures { result ≡ length self.now }
    {
        self.entries.len()
    }

    /// The place of the door of a name.
    pub(crate) fn place_of(&self, name: &str) -> Option<usize>
        ensures place { IfSome result (IsFirst (has_name name.now) self.now) }

        ensures missing { IfNone result (door_of name.now self.now ≡ None) }
    {
        let number = self.numbers.get(name)?;
        self.entries.place_of(number)
    }

    /// The place of the door of an id.
    pub(crate) fn place_of_id(&self, id: MachineId) -> Option<usize>
        ensures place { IfSome result (IsFirst (has_id id) self.now) }

        ensures missing { IfNone result (find (has_id id) self.now ≡ None) }
    {
        let place = self.entries.place_of(id.serial)?;
        if self.id_at(place).slot == id.slot {
            Some(place)
        } else {
            None
        }
    }

    /// Registers a door under a name that is not taken. No door comes whose serial is not beyond those of the others: a script
    /// counts its starts.
    pub(crate) fn push(&mut self, name: String, door: DoorCell) -> Result<(), AllocError>
        requires { door_of (string_bytes name) self.old ≡ None }
        ensures pushed { OnOk result (self.new ≡ self.old ++ door_named (string_bytes name) door ∷ []) }

        ensures unchanged { OnErr result (self.new ≡ self.old) }
    {
        let place = self.entries.len();
        let number = door.core().id().serial;
        let (next, key) = room_for(self.alloc, self.next, name.as_str(), number)?;
        self.entries.push(self.alloc, number, name, door)?;
        if let Err(error) = self.numbers.insert(key, number) {
            self.entries.truncate(place);
            return Err(error);
        }
        self.next = next;
        Ok(())
    }

    /// Takes out the door of a name. The others keep their order.
    pub(crate) fn remove(&mut self, name: &str)
        ensures { self.new ≡ without_door name.now self.old }
    {
        if let Some(number) = self.numbers.remove(name) {
            self.entries.remove(number);
        }
    }

    /// The name and the door at a place.
    fn entry_at(&self, place: usize) -> (&String, &DoorCell)
        requires { place < length self.now }
        ensures { (d : NamedDoor) → door_named (string_bytes result.0.now) result.1.now ≡ slice_index_or self.now place d }
    {
        self.entries.entry_at(place)
    }

    /// The id of the door at a place.
    pub(crate) fn id_at(&self, place: usize) -> MachineId
        requires { place < length self.now }
        ensures { (d : NamedDoor) → result ≡ (slice_index_or self.now place d).machine.id }
    {
        self.entry_at(place).1.core().id()
    }

    /// Says whether the door at a place is ready.
    pub(crate) fn is_ready_at(&self, place: usize) -> bool
        requires { place < length self.now }
        ensures { (d : NamedDoor) → result ≡ is_ready_door (slice_index_or self.now place d) }
    {
        self.entry_at(place).1.core().is_ready()
    }

    /// Says whether the door at a place has a message to be taken out.
    pub(crate) fn has_message_at(&self, place: usize) -> bool
        requires { place < length self.now }
        ensures { (d : NamedDoor) → result ≡ has_message_of (slice_index_or self.now place d).machine }
    {
        self.entry_at(place).1.core().has_message()
    }

    /// Says whether the door at a place has ended, and has no message left.
    pub(crate) fn is_over_at(&self, place: usize) -> bool
        requires { place < length self.now }
        ensures { (d : NamedDoor) → result ≡ is_over (slice_index_or self.now place d).machine }
    {
        let core = self.entry_at(place).1.core();
        core.ended().is_some() && !core.has_message()
    }

    /// Says whether the door at a place has still to see a moment.
    pub(crate) fn is_late_at(&self, place: usize, moment: u64) -> bool
        requires { place < length self.now }
        ensures { (d : NamedDoor) → result ≡ is_late moment (kept_of (slice_index_or self.now place d)) }
    {
        self.entry_at(place).1.is_late(moment)
    }

    /// A moment before which nothing of the door at a place is due.
    pub(crate) fn quiet_until_at(&self, place: usize) -> u64
        requires { place < length self.now }
        ensures bounded { result ≤ 2 ^ 63 }
        ensures quiet { (d : NamedDoor) → IsQuietUntil result (kept_of (slice_index_or self.now place d)) }
    {
        self.entry_at(place).1.quiet_until()
    }

    /// The serials of the doors' ids rise, so no two doors have one id.
    pub(crate) fn serials_rise(&self)
        ensures { DoSerialsRise 0 self.now }
    {
        let _ = &self.entries;
    }

    /// Tells the door at a place a command that is no turn, and answers its answer. Where memory is wanted and there is
    /// none, the doors stay.
    pub(crate) fn tell_at(
        &mut self,
        place: usize,
        command: Command<DoorContent>,
    ) -> Result<DoorAnswer, AllocError>
        requires place { place < length self.old }
        requires no_turn { serves command ≡ false }
        ensures answer { IfOk result (λ answer. (d : NamedDoor) → answer ≡ (told_of command (slice_index_or self.old place d)).0) }
        ensures told { OnOk result ((d : NamedDoor) → self.new ≡ slice_set self.old place (told_door command (slice_index_or self.old place d))) }

        ensures unchanged { OnErr result (self.new ≡ self.old) }
    {
        self.entries.door_mut(place).tell(command)
    }

    /// Serves the door at a place, and answers the message that comes out. Where memory is wanted and there is none, the doors
    /// stay.
    pub(crate) fn serve_at(
        &mut self,
        place: usize,
        service: Service,
    ) -> Result<Option<Message<DoorContent>>, AllocError>
        requires place { place < length self.old }
        requires can { (d : NamedDoor) → CanServe service (slice_index_or self.old place d).machine }
        ensures message { IfOk result (λ message. (d : NamedDoor) → message ≡ message_from service (slice_index_or self.old place d).machine) }
        ensures served { OnOk result ((d : NamedDoor) → self.new ≡ slice_set self.old place (served_door service (slice_index_or self.old place d))) }

        ensures unchanged { OnErr result (self.new ≡ self.old) }
    {
        self.entries.door_mut(place).serve(service)
    }

    /// The line of the names, in order of registration.
    pub(crate) fn names(&self, alloc: Global) -> Result<String, AllocError>
        ensures { IfOk result (λ text. string_bytes text ≡ names_text self.now) }
    {
        let mut text = String::from_str(alloc, "names")?;
        for place in 0..self.len() {
            let (name, _) = self.entry_at(place);
            text.push_str(" ")?;
            text.push_str(name.as_str())?;
        }
        text.push_str("\n")?;
        Ok(text)
    }

    /// The status of the door at a place.
    pub(crate) fn status_at(&self, alloc: Global, place: usize) -> Result<String, AllocError>
        requires { place < length self.now }
        ensures { IfOk result (λ text. (d : NamedDoor) → string_bytes text ≡ status_of (slice_index_or self.now place d)) }
    {
        let (name, door) = self.entry_at(place);
        let core = door.core();
        if let Some((reason, word)) = core.ended() {
            return ended_status(alloc, name.as_str(), reason, word);
        }
        status(
            alloc,
            name.as_str(),
            core.state(),
            core.data().buttons.len(),
            core.waiting(),
        )
    }

    /// Writes the trace of the door at a place.
    pub(crate) fn write_trace_at<W: Sink>(
        &self,
        alloc: Global,
        place: usize,
        writer: &mut W,
    ) -> Result<(), ScriptFault>
        requires { place < length self.now }
        ensures written { OnOk result ((d : NamedDoor) → Appends (W.held writer.old) (W.held writer.new) (trace_of_door (slice_index_or self.now place d))) }

        ensures faults { IfErr result (λ fault. IsOfInput fault → ⊥) }
        ensures failures { MatchResult result (λ _. W.failures writer.new ≡ W.failures writer.old)
            (λ fault. W.failures writer.new ≡ write_failures_after fault (W.failures writer.old)) }
        ensures front { OnErr result ((d : NamedDoor) → AppendsFront (W.held writer.old) (W.held writer.new) (trace_of_door (slice_index_or self.now place d))) }
    {
        let (name, door) = self.entry_at(place);
        door.write_trace(alloc, name.as_str(), writer)
    }
}

/// Makes ready to register a door of this number under a name, where numbers from `next` on are free. Answers from where on they
/// are then, and a copy of the name.
fn room_for(alloc: Global, next: u64, name: &str, number: u64) -> Result<(u64, String), AllocError>
    ensures order { OnOk result (next ≤ number) }
    ensures next { IfOk result (λ room. room.0 ≡ number + 1) }
    ensures key { IfOk result (λ room. string_bytes room.1 ≡ name.now) }
{
    if number < next {
        return Err(AllocError);
    }
    let Some(after) = number.checked_add(1) else {
        return Err(AllocError);
    };
    Ok((after, String::from_str(alloc, name)?))
}
