//! A script between two of its lines.
ghost use Rattle.std.specs.Prelude.{◌≡◌, ◌≤◌, ◌<◌, ◌++◌, ◌∷◌, [], ℕ, List, false, Some, None, Ok, Err, IfOk, IfErr, OnOk, OnErr, MatchResult, IfNone, IfSome, length, slice_index_or, slice_set};
ghost use Rattle.st_answers.specs.declared.answer.Answer.TheVariants as answer;
ghost use Rattle.st_answers.specs.declared.command.Command.TheVariants as command;
ghost use Rattle.st_doors.specs.Doors.{NamedDoor, IsFirst, SameLabels, asks, door_at_first, door_limit, door_named, door_of, has_name, length_in, refusal_in, told_of, told_door, all_expired_of, serves};
ghost use Rattle.st_doors.specs.Printing.{length_text, status_of};
ghost use Rattle.st_doors.specs.ScriptFault.{IsOfInput, write_failures_after};
ghost use Rattle.st_doors.specs.Streams.{AppendsFront};
ghost use Rattle.st_doors.specs.Traces.{traces_of};
ghost use Rattle.std.specs.Io.KnownBytes.{Appends};
ghost use Rattle.st_door.specs.Script.{first_script_state, is_traced, step_of, commanded_of, effect_of, status_finished, told_script, with_start, without_named, door_start_of, ticked_script, rested_of};
ghost use Rattle.st_door.specs.declared.effect.Effect.TheVariants.{Printed};
ghost use Rattle.st_door.specs.declared.line.Line.TheVariants as line;

use crate::Mode;
use crate::effect::Effect;
use crate::line::Line;
use st_core::{Answer, Command, Core, Entry, MOMENT_LIMIT, Start};
use st_doors::{
    Digits, Door, DoorAnswer, DoorCell, DoorContent, FreeSlots, LateDoors, ScriptFault, Sink,
    code_length, expired, let_go, removed, run_until_idle,
};
use st_events::{MachineId, PlainText, Refusal, Tag};
use std::alloc::{AllocError, Global};
use std::marker::Model;

/// How many doors there may be.
const DOOR_LIMIT: usize = 65_536;

/// A script between two of its lines: whether the doors' histories are kept, its doors, the places that they take in the table, its moment in milliseconds, how
/// many starts have succeeded, and from which place in the list up to which other a door may be ready. Between lines no
/// other is.
#[derive(Drop)]
pub(crate) struct Script {
    alloc: Global,
    traced: bool,
    doors: LateDoors,
    slots: FreeSlots,
    moment: u64,
    started: u64,
    from: usize,
    until: usize,
}

impl Model for Script {
    ghost use Rattle.st_doors.specs.Doors.{IsKept};
    ghost use Rattle.st_door.specs.Script.{ScriptState};

    ghost Value = { ScriptState };

    ghost view = { λ script. record { traced = script.traced; doors = script.doors; moment = script.moment; started = script.started } };

    ghost invariant = { λ script. IsKept script.doors script.slots script.from script.until };
}

impl Script {
    /// A script before its first line.
    pub(crate) fn new(alloc: Global, mode: Mode) -> Script
        ensures { result ≡ first_script_state mode }
    {
        Script {
            alloc,
            traced: is_traced(mode),
            doors: LateDoors::new(alloc),
            slots: FreeSlots::new(alloc),
            moment: 0,
            started: 0,
            from: 0,
            until: 0,
        }
    }

    /// Does what a line says, and answers what it brings about.
    pub(crate) fn obey(&mut self, line: Line) -> Result<Effect, AllocError>
        ensures effect { IfOk result (λ effect. effect ≡ (step_of self.old line).0) }
        ensures script { OnOk result (self.new ≡ (step_of self.old line).1) }
    {
        match line {
            Line::Blank => Ok(Effect::Silent),
            Line::Malformed => Ok(Effect::Malformed),
            Line::New { name, code } => self.obey_new(name, &code),
            Line::Button { name, digit } => {
                let command = Command::Post(Entry::Cast, DoorContent::Button(digit));
                self.obey_command(name.as_str(), command)
            }
            Line::Show { name } => self.obey_show(name.as_str()),
            Line::At { moment } => self.obey_at(moment),
            Line::Stop { name, reason } => {
                self.obey_command(name.as_str(), Command::Stop(reason))
            }
            Line::Remove { name } => self.obey_remove(name.as_str()),
            Line::Length { name } => self.obey_length(name.as_str()),
            Line::Relay {
                name,
                target,
                digit,
            } => self.obey_relay(name.as_str(), target.as_str(), digit),
            Line::Names => self.obey_names(),
        }
    }

    /// Starts a door under a name, and answers its status.
    fn obey_new(&mut self, name: PlainText, code: &Digits) -> Result<Effect, AllocError>
        ensures effect { IfOk result (λ effect. effect ≡ (step_of self.old (line.New name code.now)).0) }
        ensures script { OnOk result (self.new ≡ (step_of self.old (line.New name code.now)).1) }
    {
        if let Some(taken) = self.place_of(name.as_str()) {
            let id = self.id_at(taken);
            return Ok(Effect::Refuses(Refusal::AlreadyStarted(id)));
        }
        let place = self.len();
        if place >= DOOR_LIMIT {
            return Ok(Effect::Refuses(Refusal::Full));
        }
        if let Some(refusal) = self.start_door(name, code)? {
            return Ok(Effect::Refuses(refusal));
        }
        self.run_until_idle()?;
        self.status_effect(place)
    }

    /// Tells the door of a name a command that is no turn, and answers its status.
    fn obey_command(
        &mut self,
        name: &str,
        command: Command<DoorContent>,
    ) -> Result<Effect, AllocError>
        requires { serves command ≡ false }
        ensures effect { IfOk result (λ effect. effect ≡ (commanded_of self.old name.now command).0) }
        ensures script { OnOk result (self.new ≡ (commanded_of self.old name.now command).1) }
    {
        let Some(place) = self.place_of(name) else {
            return Ok(Effect::Refuses(Refusal::NoSuchName));
        };
        self.command_at(place, command, place)
    }

    /// Has the door of a name send a button to that of another, and answers the status of the other.
    fn obey_relay(&mut self, name: &str, target: &str, digit: u8) -> Result<Effect, AllocError>
        ensures effect { IfOk result (λ effect. effect ≡ (step_of self.old (line.Relay name.now target.now digit)).0) }
        ensures script { OnOk result (self.new ≡ (step_of self.old (line.Relay name.now target.now digit)).1) }
    {
        let Some(place) = self.place_of(name) else {
            return Ok(Effect::Refuses(Refusal::NoSuchName));
        };
        let Some(aim) = self.place_of(target) else {
            return Ok(Effect::Refuses(Refusal::NoSuchName));
        };
        let id = self.id_at(aim);
        let relays = Command::Post(Entry::Cast, DoorContent::Relay(id, digit));
        self.command_at(place, relays, aim)
    }

    /// Tells the door at a place a command that is no turn, and answers the status of the door at another place, or why the
    /// command is refused.
    fn command_at(
        &mut self,
        place: usize,
        command: Command<DoorContent>,
        aim: usize,
    ) -> Result<Effect, AllocError>
        requires place { place < length self.old.doors }
        requires aim { aim < length self.old.doors }
        requires no_turn { serves command ≡ false }
        ensures effect { IfOk result (λ effect. (name target : List ℕ)
            → IsFirst (has_name name) self.old.doors place
            → IsFirst (has_name target) self.old.doors aim
            → effect ≡ (effect_of self.old (status_finished target) (told_script self.old name command (door_of name self.old.doors))).0) }
        ensures script { OnOk result ((name target : List ℕ)
            → IsFirst (has_name name) self.old.doors place
            → IsFirst (has_name target) self.old.doors aim
            → self.new ≡ (effect_of self.old (status_finished target) (told_script self.old name command (door_of name self.old.doors))).1) }
    {
        if let Some(refusal) = self.refusal_to(place, command)? {
            return Ok(Effect::Refuses(refusal));
        }
        self.run_until_idle()?;
        self.status_effect(aim)
    }

    /// Answers the status of the door of a name.
    fn obey_show(&mut self, name: &str) -> Result<Effect, AllocError>
        ensures effect { IfOk result (λ effect. effect ≡ (step_of self.old (line.Show name.now)).0) }
        ensures script { OnOk result (self.new ≡ (step_of self.old (line.Show name.now)).1) }
    {
        let Some(place) = self.place_of(name) else {
            return Ok(Effect::Refuses(Refusal::NoSuchName));
        };
        self.run_until_idle()?;
        self.status_effect(place)
    }

    /// Lets time pass up to a moment, and answers how many time-outs expire. A moment before the script's
    /// counts as the script's.
    fn obey_at(&mut self, moment: u64) -> Result<Effect, AllocError>
        ensures effect { IfOk result (λ effect. effect ≡ (step_of self.old (line.At moment)).0) }
        ensures script { OnOk result (self.new ≡ (step_of self.old (line.At moment)).1) }
    {
        if moment >= MOMENT_LIMIT {
            return Ok(Effect::Refuses(Refusal::Moment));
        }
        let count = self.tick(self.moment.max(moment))?;
        self.run_until_idle()?;
        let text = expired(self.alloc, self.moment, count)?;
        Ok(Effect::Printed(PlainText::from(text)))
    }

    /// Takes out the door of a name, which has ended and has no message left.
    fn obey_remove(&mut self, name: &str) -> Result<Effect, AllocError>
        ensures effect { IfOk result (λ effect. effect ≡ (step_of self.old (line.Remove name.now)).0) }
        ensures script { OnOk result (self.new ≡ (step_of self.old (line.Remove name.now)).1) }
    {
        let Some(place) = self.doors.place_of(name) else {
            return Ok(Effect::Refuses(Refusal::NoSuchName));
        };
        if !self.doors.is_over_at(place) {
            return Ok(Effect::Refuses(Refusal::NotStopped));
        }
        self.remove_door(name, place);
        self.run_until_idle()?;
        let text = removed(self.alloc, name)?;
        Ok(Effect::Printed(PlainText::from(text)))
    }

    /// Asks the door of a name how long its code is, and answers what it replies.
    fn obey_length(&mut self, name: &str) -> Result<Effect, AllocError>
        ensures effect { IfOk result (λ effect. effect ≡ (step_of self.old (line.Length name.now)).0) }
        ensures script { OnOk result (self.new ≡ (step_of self.old (line.Length name.now)).1) }
    {
        let Some(place) = self.place_of(name) else {
            return Ok(Effect::Refuses(Refusal::NoSuchName));
        };
        let machine = self.id_at(place);
        let asked = self.ask_length(place)?;
        let request = match asked {
            Ok(number) => number,
            Err(refusal) => return Ok(Effect::Refuses(refusal)),
        };
        self.run_until_idle()?;
        let digits = self.collect_length(place, Tag { machine, request })?;
        self.length_effect(name, digits)
    }

    /// Asks the door at a place how long its code is, and answers the number of the request, or why that is refused.
    fn ask_length(&mut self, place: usize) -> Result<Result<u64, Refusal>, AllocError>
        requires { place < length self.old.doors }
        ensures asked { IfOk result (λ asked. IfOk asked (λ number. (d : NamedDoor) → answer.Post (Ok number) ≡ (told_of asks (slice_index_or self.old.doors place d)).0)) }
        ensures refused { IfOk result (λ asked. IfErr asked (λ refusal. (d : NamedDoor) → Some refusal ≡ refusal_in (told_of asks (slice_index_or self.old.doors place d)).0)) }
        ensures told { OnOk result ((d : NamedDoor) → self.new ≡ record self.old { doors = slice_set self.old.doors place (told_door asks (slice_index_or self.old.doors place d)) }) }
    {
        let asks = Command::Post(Entry::Call, DoorContent::CodeLength);
        let Answer::Post(posted) = self.tell(place, asks)? else {
            unreachable!()
        };
        match posted {
            Ok(number) => Ok(Ok(number)),
            Err(refused) => Ok(Err(refused.refusal)),
        }
    }

    /// Collects the reply to a request at the door at a place, and answers the length that it says, if it says one.
    fn collect_length(&mut self, place: usize, tag: Tag) -> Result<Option<usize>, AllocError>
        requires { place < length self.old.doors }
        ensures digits { IfOk result (λ digits. (d : NamedDoor) → digits ≡ length_in (told_of (command.Collect tag) (slice_index_or self.old.doors place d)).0) }
        ensures told { OnOk result ((d : NamedDoor) → self.new ≡ record self.old { doors = slice_set self.old.doors place (told_door (command.Collect tag) (slice_index_or self.old.doors place d)) }) }
    {
        let collected = self.tell(place, Command::Collect(tag))?;
        Ok(let_go(collected).digits)
    }

    /// Answers the length of the code of the door of a name.
    fn length_effect(&self, name: &str, digits: Option<usize>) -> Result<Effect, AllocError>
        ensures { IfOk result (λ effect. effect ≡ Printed (length_text name.now digits)) }
    {
        let text = code_length(self.alloc, name, digits)?;
        Ok(Effect::Printed(PlainText::from(text)))
    }

    /// Answers the names.
    fn obey_names(&mut self) -> Result<Effect, AllocError>
        ensures effect { IfOk result (λ effect. effect ≡ (step_of self.old line.Names).0) }
        ensures script { OnOk result (self.new ≡ (step_of self.old line.Names).1) }
    {
        self.run_until_idle()?;
        Ok(Effect::Printed(PlainText::from(self.doors.names(self.alloc)?)))
    }

    /// How many doors there are.
    fn len(&self) -> usize
        ensures { result ≡ length self.now.doors }
    {
        self.doors.len()
    }

    /// The place of the door of a name.
    fn place_of(&self, name: &str) -> Option<usize>
        ensures place { IfSome result (IsFirst (has_name name.now) self.now.doors) }

        ensures missing { IfNone result (door_of name.now self.now.doors ≡ None) }
    {
        self.doors.place_of(name)
    }

    /// The id of the door at a place.
    fn id_at(&self, place: usize) -> MachineId
        requires { place < length self.now.doors }
        ensures { (d : NamedDoor) → result ≡ (slice_index_or self.now.doors place d).machine.id }
    {
        self.doors.id_at(place)
    }

    /// Starts a door under a name that is not taken, and answers why that is refused, if it is.
    fn start_door(&mut self, name: PlainText, code: &Digits) -> Result<Option<Refusal>, AllocError>
        requires free { door_of name self.old.doors ≡ None }
        requires reserved { length self.old.doors < door_limit }
        ensures started { IfOk result (λ refusal. IfNone refusal (with_start self.old name (door_start_of self.old code.now) ≡ Ok self.new)) }
        ensures refused { IfOk result (λ refusal. IfSome refusal (λ refusal. (with_start self.old name (door_start_of self.old code.now) ≡ Err refusal) × (self.new ≡ self.old))) }
    {
        let slot = self.slots.least_free()?;
        let Some(serial) = self.started.checked_add(1) else {
            return Err(AllocError);
        };
        let id = MachineId { slot, serial };
        match Core::start(self.alloc, Door, id, code, self.moment) {
            Ok(Start::Running(core, report)) => {
                drop(report);
                register(self.alloc, &mut self.doors, name, core, self.traced)?;
                self.slots.take(slot);
                self.started = serial;
                Ok(None)
            }
            Ok(Start::Ignored) => unreachable!(),
            Ok(Start::Stopped(_reason)) => unreachable!(),
            Err(refused) => match refused.refusal {
                Refusal::NoMemory => Err(AllocError),
                refusal => Ok(Some(refusal)),
            },
        }
    }

    /// Takes out the door of a name, which is at this place. Those behind it move up by one place, and none becomes ready.
    fn remove_door(&mut self, name: &str, place: usize)
        requires { IsFirst (has_name name.now) self.old.doors place }
        ensures { self.new ≡ without_named self.old name.now }
    {
        let slot = self.doors.id_at(place).slot;
        self.doors.remove(name);
        self.slots.free(slot);
        self.from = self.from.saturating_sub(1);
        self.until = self.until.min(self.doors.len());
    }

    /// Tells the door at a place a command that is no turn, and answers its answer. From then on the door may be ready.
    fn tell(
        &mut self,
        place: usize,
        command: Command<DoorContent>,
    ) -> Result<DoorAnswer, AllocError>
        requires place { place < length self.old.doors }
        requires no_turn { serves command ≡ false }
        ensures answer { IfOk result (λ answer. (d : NamedDoor) → answer ≡ (told_of command (slice_index_or self.old.doors place d)).0) }
        ensures told { OnOk result ((d : NamedDoor) → self.new ≡ record self.old { doors = slice_set self.old.doors place (told_door command (slice_index_or self.old.doors place d)) }) }
    {
        let answer = self.doors.tell_at(place, command)?;
        let (from, until) = widened(self.from, self.until, place);
        self.from = from;
        self.until = until;
        Ok(answer)
    }

    /// Tells the door at a place a command that is no turn, and answers why it is refused, if it is.
    fn refusal_to(
        &mut self,
        place: usize,
        command: Command<DoorContent>,
    ) -> Result<Option<Refusal>, AllocError>
        requires place { place < length self.old.doors }
        requires no_turn { serves command ≡ false }
        ensures refusal { IfOk result (λ refusal. (d : NamedDoor) → refusal ≡ refusal_in (told_of command (slice_index_or self.old.doors place d)).0) }
        ensures told { OnOk result ((d : NamedDoor) → self.new ≡ record self.old { doors = slice_set self.old.doors place (told_door command (slice_index_or self.old.doors place d)) }) }
    {
        let answer = self.tell(place, command)?;
        Ok(let_go(answer).refusal)
    }

    /// Goes to a moment and ticks each door at it, and answers how many time-outs expire. Where any
    /// does, each door may be ready from then on.
    fn tick(&mut self, moment: u64) -> Result<u128, AllocError>
        ensures expired { IfOk result (λ expired. expired ≡ all_expired_of moment self.old.doors) }
        ensures ticked { OnOk result (self.new ≡ ticked_script self.old moment) }
    {
        let (from, until) = (self.from, self.until);
        self.from = 0;
        self.until = self.doors.len();
        let expired = self.doors.tick(moment)?;
        self.moment = moment;
        if expired == 0 {
            self.from = from;
            self.until = until;
        }
        Ok(expired)
    }

    /// Has the doors go on until they rest.
    fn run_until_idle(&mut self) -> Result<(), AllocError>
        ensures rested { OnOk result (self.new ≡ rested_of self.old) }
        ensures same_labels { OnOk result (SameLabels self.old.doors self.new.doors) }
    {
        let (from, until) = (self.from, self.until);
        self.from = 0;
        self.until = self.doors.len();
        let (from, until) = run_until_idle(&mut self.doors, from, until, self.moment)?;
        self.from = from;
        self.until = until;
        Ok(())
    }

    /// Writes the traces of the doors, in order of registration, one after another, each piece by piece.
    pub(crate) fn write_traces<W: Sink>(&self, writer: &mut W) -> Result<(), ScriptFault>
        ensures written { OnOk result (Appends (W.held writer.old) (W.held writer.new) (traces_of self.now.doors)) }

        ensures faults { IfErr result (λ fault. IsOfInput fault → ⊥) }
        ensures failures { MatchResult result (λ _. W.failures writer.new ≡ W.failures writer.old)
            (λ fault. W.failures writer.new ≡ write_failures_after fault (W.failures writer.old)) }
        ensures front { OnErr result (AppendsFront (W.held writer.old) (W.held writer.new) (traces_of self.now.doors)) }
    {
        for place in 0..self.doors.len() {
            self.doors.write_trace_at(self.alloc, place, writer)?;
        }
        Ok(())
    }

    /// Answers the status of the door at a place.
    fn status_effect(&self, place: usize) -> Result<Effect, AllocError>
        requires { place < length self.now.doors }
        ensures { IfOk result (λ effect. (d : NamedDoor) → effect ≡ Printed (status_of (slice_index_or self.now.doors place d))) }
    {
        let text = self.doors.status_at(self.alloc, place)?;
        Ok(Effect::Printed(PlainText::from(text)))
    }
}

/// Puts the machine of a door that has started among the doors, under a name that is not taken.
fn register(
    alloc: Global,
    doors: &mut LateDoors,
    name: PlainText,
    core: Core<Door>,
    traced: bool,
) -> Result<(), AllocError>
    requires { door_of name doors.old ≡ None }
    ensures pushed { OnOk result (doors.new ≡ doors.old ++ door_named name (door_at_first traced core.machine) ∷ []) }

    ensures unchanged { OnErr result (doors.new ≡ doors.old) }
{
    let door = DoorCell::new(alloc, core, traced)?;
    doors.push(name.into_string(), door)
}

/// Says whether a mode prints the histories of doors, and so keeps them.
fn is_traced(mode: Mode) -> bool
    ensures { result ≡ is_traced mode }
{
    match mode {
        Mode::Run => false,
        Mode::Trace => true,
    }
}

/// The places from one up to another, and this place too.
fn widened(from: usize, until: usize, place: usize) -> (usize, usize)
    requires { place < door_limit }
    ensures ordered { result.0 ≤ result.1 }
    ensures place { (result.0 ≤ place) × (place < result.1) }
    ensures wider { from < until → (result.0 ≤ from) × (until ≤ result.1) }
    ensures narrow { (n : ℕ) → until ≤ n → place < n → result.1 ≤ n }
{
    if from < until {
        (from.min(place), until.max(place + 1))
    } else {
        (place, place + 1)
    }
}
