//! The doors of a script, which are ticked late.
ghost use Rattle.std.specs.Prelude.{◌≡◌, ◌<◌, ◌≤◌, ◌^◌, ℕ, false, [], ◌∷◌, ◌++◌, None, find, IfOk, IfErr, OnOk, OnErr, MatchResult, IfSome, IfNone, length, slice_set, slice_index_or, string_bytes};
ghost use Rattle.std.specs.Io.KnownBytes.{Appends};
ghost use Rattle.st_core.specs.Choice.{has_message_of};
ghost use Rattle.std.specs.List.{list_any};
ghost use Rattle.st_doors.specs.Doors.{NamedDoor, door_named, IsFirst, has_name, door_of, without_door, is_over, is_ready_door, told_of, told_door, all_expired_of, ticked_doors, SameLabels, door_limit, serves};
ghost use Rattle.st_doors.specs.Late.{caught_up};
ghost use Rattle.st_doors.specs.Printing.{status_of, names_text};
ghost use Rattle.st_doors.specs.Settling.{CanServe, has_id, message_from, served_door};
ghost use Rattle.st_doors.specs.ScriptFault.{IsOfInput, write_failures_after};
ghost use Rattle.st_doors.specs.Streams.{AppendsFront};
ghost use Rattle.st_doors.specs.Traces.{trace_of_door};

use crate::answers::{DoorAnswer, let_go};
use crate::door_cell::DoorCell;
use crate::doors::Doors;
use crate::due_doors::{first_ready, note_at, prepare, reserve, tick_due};
use crate::service::Service;
use crate::{DoorContent, ScriptFault, Sink};
use st_core::{Command, MOMENT_LIMIT};
use st_due::DueQueue;
use st_events::{MachineId, Message};
use std::alloc::{AllocError, Global};
use std::marker::Model;

/// The doors of a script, which are ticked late. Contracts see them as if each tick were made at once.
///
/// A tick at which nothing of a door is due only brings a later moment. It does not go to the door: the moment is kept here,
/// and made up for at the door's next command, before anything of the door is looked at. `due` has each door at a moment
/// before which, from the late moment on, nothing of it is due; so a tick goes to those that are due, and to no other. Where
/// the history of a door is kept, each tick stands in it, and goes to each door.
///
/// `awake` has each door that is ready, and perhaps some that are not, by their serials, which rise in order of registration.
///
/// Ours: docs/SCRIPTS.md.
#[derive(Drop)]
pub struct LateDoors {
    doors: Doors,
    traced: bool,
    late: u64,
    due: DueQueue,
    awake: DueQueue,
}

impl Model for LateDoors {
    ghost use Rattle.std.specs.Prelude.{List, map};
    ghost use Rattle.st_doors.specs.Doors.{NamedDoor};
    ghost use Rattle.st_doors.specs.Late.{caught_up};
    ghost use Rattle.st_doors.specs.Notes.{AreWatched};

    ghost Value = { List NamedDoor };

    ghost view = { λ doors. map (caught_up doors.late) doors.doors };

    ghost invariant = { λ doors. AreWatched doors.late doors.traced doors.due.machines doors.awake.machines doors.doors };
}

impl LateDoors {
    /// No doors.
    ///
    /// Ours: docs/SCRIPTS.md.
    pub fn new(alloc: Global) -> LateDoors
        ensures { result ≡ [] }
    {
        LateDoors {
            doors: Doors::new(alloc),
            traced: false,
            late: 0,
            due: DueQueue::new(alloc),
            awake: DueQueue::new(alloc),
        }
    }

    /// How many doors there are.
    ///
    /// Ours: docs/SCRIPTS.md.
    pub fn len(&self) -> usize
        ensures { result ≡ length self.now }
    {
        self.doors.len()
    }

    /// The place of the door of a name.
    ///
    /// Ours: docs/SCRIPTS.md.
    pub fn place_of(&self, name: &str) -> Option<usize>
        ensures place { IfSome result (IsFirst (has_name name.now) self.now) }

        ensures missing { IfNone result (door_of name.now self.now ≡ None) }
    {
        self.doors.place_of(name)
    }

    /// The place of the door of an id.
    pub(crate) fn place_of_id(&self, id: MachineId) -> Option<usize>
        ensures place { IfSome result (IsFirst (has_id id) self.now) }

        ensures missing { IfNone result (find (has_id id) self.now ≡ None) }
    {
        self.doors.place_of_id(id)
    }

    /// Registers a door under a name that is not taken. No door comes that has still to see the late moment: each starts at
    /// the script's moment, which is no earlier.
    ///
    /// Ours: docs/SCRIPTS.md.
    pub fn push(&mut self, name: String, door: DoorCell) -> Result<(), AllocError>
        requires { door_of (string_bytes name) self.old ≡ None }
        ensures pushed { OnOk result (self.new ≡ self.old ++ door_named (string_bytes name) door ∷ []) }

        ensures unchanged { OnErr result (self.new ≡ self.old) }
    {
        if door.is_late(self.late) {
            return Err(AllocError);
        }
        reserve(&mut self.due, &mut self.awake)?;
        let place = self.doors.len();
        let traced = door.is_traced();
        self.doors.push(name, door)?;
        self.traced |= traced;
        note_at(&self.doors, &mut self.due, &mut self.awake, place, 0);
        Ok(())
    }

    /// Takes out the door of a name. The others keep their order.
    ///
    /// Ours: docs/SCRIPTS.md.
    pub fn remove(&mut self, name: &str)
        ensures { self.new ≡ without_door name.now self.old }
    {
        let Some(place) = self.doors.place_of(name) else {
            return;
        };
        self.doors.serials_rise();
        let id = self.doors.id_at(place);
        self.doors.remove(name);
        self.due.forget(id);
        self.awake.forget(id);
    }

    /// The id of the door at a place.
    ///
    /// Ours: docs/SCRIPTS.md.
    pub fn id_at(&self, place: usize) -> MachineId
        requires { place < length self.now }
        ensures { (d : NamedDoor) → result ≡ (slice_index_or self.now place d).machine.id }
    {
        self.doors.id_at(place)
    }

    /// Says whether the door at a place is ready.
    pub(crate) fn is_ready_at(&self, place: usize) -> bool
        requires { place < length self.now }
        ensures { (d : NamedDoor) → result ≡ is_ready_door (slice_index_or self.now place d) }
    {
        self.doors.is_ready_at(place)
    }

    /// Says whether the door at a place has a message to be taken out.
    pub(crate) fn has_message_at(&self, place: usize) -> bool
        requires { place < length self.now }
        ensures { (d : NamedDoor) → result ≡ has_message_of (slice_index_or self.now place d).machine }
    {
        self.doors.has_message_at(place)
    }

    /// Says whether the door at a place has ended, and has no message left.
    ///
    /// Ours: docs/SCRIPTS.md.
    pub fn is_over_at(&self, place: usize) -> bool
        requires { place < length self.now }
        ensures { (d : NamedDoor) → result ≡ is_over (slice_index_or self.now place d).machine }
    {
        self.doors.is_over_at(place)
    }

    /// Tells the door at a place a command that is no turn, and answers its answer. Where memory is wanted and there is
    /// none, the doors stay.
    ///
    /// Ours: docs/SCRIPTS.md.
    pub fn tell_at(
        &mut self,
        place: usize,
        command: Command<DoorContent>,
    ) -> Result<DoorAnswer, AllocError>
        requires place { place < length self.old }
        requires no_turn { serves command ≡ false }
        ensures answer { IfOk result (λ answer. (d : NamedDoor) → answer ≡ (told_of command (slice_index_or self.old place d)).0) }
        ensures told { OnOk result ((d : NamedDoor) → self.new ≡ slice_set self.old place (told_door command (slice_index_or self.old place d))) }

        ensures unchanged { OnErr result (self.new ≡ self.old) }
    {
        prepare(
            &mut self.doors,
            &mut self.due,
            &mut self.awake,
            place,
            self.late,
        )?;
        let answer = self.doors.tell_at(place, command)?;
        note_at(&self.doors, &mut self.due, &mut self.awake, place, 0);
        Ok(answer)
    }

    /// Serves the door at a place, and answers the message that comes out. Where memory is wanted and there is none, the doors
    /// stay.
    pub(crate) fn serve_at(
        &mut self,
        place: usize,
        service: Service,
    ) -> Result<Option<Message<DoorContent>>, AllocError>
        requires place { place < length self.old }
        requires can { (d : NamedDoor) → CanServe service (slice_index_or self.old place d).machine }
        ensures message { IfOk result (λ message. (d : NamedDoor) → message ≡ message_from service (slice_index_or self.old place d).machine) }
        ensures served { OnOk result ((d : NamedDoor) → self.new ≡ slice_set self.old place (served_door service (slice_index_or self.old place d))) }

        ensures unchanged { OnErr result (self.new ≡ self.old) }
    {
        prepare(
            &mut self.doors,
            &mut self.due,
            &mut self.awake,
            place,
            self.late,
        )?;
        let message = self.doors.serve_at(place, service)?;
        note_at(&self.doors, &mut self.due, &mut self.awake, place, 0);
        Ok(message)
    }

    /// The place of the first door that is ready, if one is.
    pub(crate) fn first_ready(&mut self) -> Result<Option<usize>, AllocError>
        ensures first { IfOk result (λ place. IfSome place (IsFirst is_ready_door self.old)) }
        ensures none { IfOk result (λ place. IfNone place (list_any is_ready_door self.old ≡ false)) }

        // Whatever the answer is.
        ensures same { self.new ≡ self.old }
    {
        first_ready(&self.doors, &mut self.awake)
    }

    /// Ticks the doors, and answers how many time-outs expire. Only those are looked at of which something is due, unless a
    /// history is kept.
    ///
    /// Ours: docs/SCRIPTS.md.
    pub fn tick(&mut self, moment: u64) -> Result<u128, AllocError>
        requires { length self.old ≤ door_limit }
        ensures expired { IfOk result (λ expired. expired ≡ all_expired_of moment self.old) }
        ensures ticked { OnOk result (self.new ≡ ticked_doors moment self.old) }

        // Whatever the answer is.
        ensures same_labels { SameLabels self.old self.new }
    {
        if !self.traced && self.late <= moment && moment < MOMENT_LIMIT {
            let expired = tick_due(
                &mut self.doors,
                &mut self.due,
                &mut self.awake,
                self.late,
                moment,
            )?;
            self.late = moment;
            return Ok(expired);
        }
        self.tick_each(moment)
    }

    /// Ticks each door, in order of registration, and answers how many time-outs expire.
    fn tick_each(&mut self, moment: u64) -> Result<u128, AllocError>
        requires { length self.old ≤ door_limit }
        ensures expired { IfOk result (λ expired. expired ≡ all_expired_of moment self.old) }
        ensures ticked { OnOk result (self.new ≡ ticked_doors moment self.old) }

        // Whatever the answer is.
        ensures same_labels { SameLabels self.old self.new }
    {
        let mut expired = 0;
        for place in 0..self.len() {
            let answer = self.tell_at(place, Command::Tick(moment))?;
            expired += u128::from(let_go(answer).expired);
        }
        Ok(expired)
    }

    /// The line of the names, in order of registration.
    ///
    /// Ours: docs/SCRIPTS.md.
    pub fn names(&self, alloc: Global) -> Result<String, AllocError>
        ensures { IfOk result (λ text. string_bytes text ≡ names_text self.now) }
    {
        self.doors.names(alloc)
    }

    /// The status of the door at a place.
    ///
    /// Ours: docs/SCRIPTS.md.
    pub fn status_at(&self, alloc: Global, place: usize) -> Result<String, AllocError>
        requires { place < length self.now }
        ensures { IfOk result (λ text. (d : NamedDoor) → string_bytes text ≡ status_of (slice_index_or self.now place d)) }
    {
        self.doors.status_at(alloc, place)
    }

    /// Writes the trace of the door at a place.
    ///
    /// Ours: docs/SCRIPTS.md.
    pub fn write_trace_at<W: Sink>(
        &self,
        alloc: Global,
        place: usize,
        writer: &mut W,
    ) -> Result<(), ScriptFault>
        requires { place < length self.now }
        ensures written { OnOk result ((d : NamedDoor) → Appends (W.held writer.old) (W.held writer.new) (trace_of_door (slice_index_or self.now place d))) }

        ensures faults { IfErr result (λ fault. IsOfInput fault → ⊥) }
        ensures failures { MatchResult result (λ _. W.failures writer.new ≡ W.failures writer.old)
            (λ fault. W.failures writer.new ≡ write_failures_after fault (W.failures writer.old)) }
        ensures front { OnErr result ((d : NamedDoor) → AppendsFront (W.held writer.old) (W.held writer.new) (trace_of_door (slice_index_or self.now place d))) }
    {
        self.doors.write_trace_at(alloc, place, writer)
    }
}
