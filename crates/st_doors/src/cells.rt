//! What is done with the cell of a door, through its one port.
ghost use Rattle.std.specs.Prelude.{◌≡◌, ◌+◌, ◌<◌, ◌≤◌, ◌^◌, true, false, Some, None, max, length, IfOk, OnOk, OnErr};
ghost use Rattle.st_core.specs.Choice.{has_event_of, has_message_of, waiting_of};
ghost use Rattle.st_core.specs.Run.{step_of};
ghost use Rattle.st_answers.specs.declared.command.Command.TheVariants as command;
ghost use Rattle.st_answers.specs.declared.entry.Entry.TheVariants.{Info};
ghost use Rattle.st_outbox.specs.Outbox.{first_message};
ghost use Rattle.st_scheduled.specs.ScheduledMachine.{HasTokenForWork, token_of};
ghost use Rattle.st_scheduled.specs.Serving.{is_full};
ghost use Rattle.st_cell.specs.Cell.{IsOpen};
ghost use Rattle.st_journal.specs.declared.source.Source.TheVariants as source;
ghost use Rattle.st_doors.specs.Doors.{door_callbacks, serves};
ghost use Rattle.st_doors.specs.Entries.{HasTold, HasToldBy, IsWhole, history_in, machine_in, past_in};
ghost use Rattle.st_doors.specs.Settling.{CanServe, command_for, message_from, source_for};

use crate::answers::DoorAnswer;
use crate::past::{Past, journal_of};
use crate::service::Service;
use crate::{Door, DoorContent};
use st_cell::{Cell, a_cell_has_a_token_for_work};
use st_core::{Answer, Command, Entry};
use st_events::{Message, Reason, Refusal, Tag, Token};
use std::alloc::AllocError;

/// The port of a door: the first one.
const PORT: u64 = 1;

/// How many entries the journal of a door may have. It may have more where more events wait.
const JOURNAL_LIMIT: usize = 2;

/// How many commands a door takes. No script has as many: it has at most 2^20 lines, with 2^21 commands at most for one
/// door.
const COMMAND_LIMIT: u64 = 1 << 62;

/// Cuts the journal where it is long, and longer than what waits: nothing reads it. So what a door takes of memory does not
/// grow with what was done.
fn shorten(cell: &mut Cell<Door>) -> Result<(), AllocError>
    ensures short { OnOk result (length cell.new.journal ≤ max JOURNAL_LIMIT (waiting_of (machine_in cell.new))) }

    // Whatever the answer is.
    ensures same { cell.new.scheduled ≡ cell.old.scheduled }
    ensures ports { cell.new.ports ≡ cell.old.ports }
{
    let entries = journal_of(cell).len();
    if entries > JOURNAL_LIMIT && entries > cell.core().waiting() && cell.cut().is_err() {
        return Err(AllocError);
    }
    Ok(())
}

/// Has the past take the journal in where that is long, and longer than a quarter of what waits: a cut copies what waits, so
/// that a command costs a fixed part of that on the average. Lines take less memory than entries.
fn put_by(cell: &mut Cell<Door>, past: &mut Past) -> Result<(), AllocError>
    requires { length past.old.entries + length cell.old.journal < 2 ^ 63 }

    // Whatever the answer is.
    ensures history { history_in (Some past.new) cell.new ≡ history_in (Some past.old) cell.old }
    ensures same { cell.new.scheduled ≡ cell.old.scheduled }
    ensures ports { cell.new.ports ≡ cell.old.ports }
{
    let entries = journal_of(cell).len();
    if entries > JOURNAL_LIMIT && entries > cell.core().waiting() / 4 {
        past.take_in(cell)?;
    }
    Ok(())
}

/// Makes a cell ready for one command more. A journal that is long is cut: where the history is kept, the past takes it in.
pub(crate) fn make_ready(
    cell: &mut Cell<Door>,
    past: &mut Option<Box<Past>>,
) -> Result<(), AllocError>
    requires { IsWhole (past_in past.old) cell.old }
    ensures ready { OnOk result (is_full cell.new.scheduled ≡ false) }
    ensures short { past.old ≡ None → OnOk result (length cell.new.journal ≤ max JOURNAL_LIMIT (waiting_of (machine_in cell.new))) }

    // Whatever the answer is.
    ensures history { history_in (past_in past.new) cell.new ≡ history_in (past_in past.old) cell.old }
    ensures same { cell.new.scheduled ≡ cell.old.scheduled }
    ensures ports { cell.new.ports ≡ cell.old.ports }
{
    if cell.count() >= COMMAND_LIMIT {
        return Err(AllocError);
    }
    match past {
        Some(past) => put_by(cell, &mut **past),
        None => shorten(cell),
    }
}

/// Posts an event.
fn post(cell: &mut Cell<Door>, entry: Entry, content: DoorContent) -> Result<DoorAnswer, AllocError>
    requires open { IsOpen PORT cell.old }
    requires ready { is_full cell.old.scheduled ≡ false }
    ensures answer { IfOk result (λ answer. answer ≡ (step_of door_callbacks (machine_in cell.old) (command.Post entry content)).0) }
    ensures told { OnOk result (HasTold (command.Post entry content) cell.old cell.new) }

    ensures unchanged { OnErr result (cell.new ≡ cell.old) }

    // Whatever the answer is.
    ensures ports { length cell.new.ports ≡ length cell.old.ports }
{
    match cell.post(PORT, entry, content) {
        Ok(posted) => Ok(Answer::Post(Ok(posted.number))),
        Err(refused) => match refused.refusal {
            Refusal::NoMemory => Err(AllocError),
            _ => Ok(Answer::Post(Err(refused))),
        },
    }
}

/// Tells a door the moment.
fn tick(cell: &mut Cell<Door>, moment: u64) -> Result<DoorAnswer, AllocError>
    requires ready { is_full cell.old.scheduled ≡ false }
    ensures answer { IfOk result (λ answer. answer ≡ (step_of door_callbacks (machine_in cell.old) (command.Tick moment)).0) }
    ensures told { OnOk result (HasTold (command.Tick moment) cell.old cell.new) }

    ensures unchanged { OnErr result (cell.new ≡ cell.old) }

    // Whatever the answer is.
    ensures ports { length cell.new.ports ≡ length cell.old.ports }
{
    match cell.tick(moment) {
        Ok(ticked) => Ok(Answer::Tick(Ok(ticked.expired))),
        Err(Refusal::NoMemory) => Err(AllocError),
        Err(refusal) => Ok(Answer::Tick(Err(refusal))),
    }
}

/// Ends a door.
fn stop(cell: &mut Cell<Door>, reason: Reason) -> Result<DoorAnswer, AllocError>
    requires ready { is_full cell.old.scheduled ≡ false }
    ensures answer { IfOk result (λ answer. answer ≡ (step_of door_callbacks (machine_in cell.old) (command.Stop reason)).0) }
    ensures told { OnOk result (HasTold (command.Stop reason) cell.old cell.new) }

    ensures unchanged { OnErr result (cell.new ≡ cell.old) }

    // Whatever the answer is.
    ensures ports { length cell.new.ports ≡ length cell.old.ports }
{
    match cell.stop(reason) {
        Ok(word) => Ok(Answer::Stop(Ok(word))),
        Err(Refusal::NoMemory) => Err(AllocError),
        Err(refusal) => Ok(Answer::Stop(Err(refusal))),
    }
}

/// Answers a request.
fn reply(cell: &mut Cell<Door>, tag: Tag, content: DoorContent) -> Result<DoorAnswer, AllocError>
    requires ready { is_full cell.old.scheduled ≡ false }
    ensures answer { IfOk result (λ answer. answer ≡ (step_of door_callbacks (machine_in cell.old) (command.Reply tag content)).0) }
    ensures told { OnOk result (HasTold (command.Reply tag content) cell.old cell.new) }

    ensures unchanged { OnErr result (cell.new ≡ cell.old) }

    // Whatever the answer is.
    ensures ports { length cell.new.ports ≡ length cell.old.ports }
{
    match cell.reply(tag, content) {
        Ok(taken) => Ok(Answer::Reply(taken)),
        Err(_) => Err(AllocError),
    }
}

/// Hands out what is kept for a request.
fn collect(cell: &mut Cell<Door>, tag: Tag) -> Result<DoorAnswer, AllocError>
    requires ready { is_full cell.old.scheduled ≡ false }
    ensures answer { IfOk result (λ answer. answer ≡ (step_of door_callbacks (machine_in cell.old) (command.Collect tag)).0) }
    ensures told { OnOk result (HasTold (command.Collect tag) cell.old cell.new) }

    ensures unchanged { OnErr result (cell.new ≡ cell.old) }

    // Whatever the answer is.
    ensures ports { length cell.new.ports ≡ length cell.old.ports }
{
    match cell.collect(tag) {
        Ok(collected) => Ok(Answer::Collect(collected)),
        Err(_) => Err(AllocError),
    }
}

/// A door's token. One is outstanding where the door has work.
fn token_in(cell: &Cell<Door>) -> Option<Token>
    ensures token { result ≡ token_of cell.now.scheduled }
    ensures work { HasTokenForWork cell.now.scheduled }
{
    a_cell_has_a_token_for_work(cell);
    cell.token()
}

/// Serves a door that is ready, by its token.
fn turn(cell: &mut Cell<Door>, moment: u64) -> Result<(), AllocError>
    requires ready { is_full cell.old.scheduled ≡ false }
    requires work { has_event_of (machine_in cell.old) ≡ true }
    ensures told { OnOk result (HasTold (command.Turn moment) cell.old cell.new) }

    ensures unchanged { OnErr result (cell.new ≡ cell.old) }

    // Whatever the answer is.
    ensures ports { length cell.new.ports ≡ length cell.old.ports }
{
    let Some(token) = token_in(cell) else {
        unreachable!()
    };
    match cell.turn(token, moment) {
        Ok(_next) => Ok(()),
        Err(refused) => match refused.refusal {
            Refusal::NoMemory => Err(AllocError),
            _ => Ok(()),
        },
    }
}

/// Takes the first message of a door out, by its token.
fn take_out(cell: &mut Cell<Door>) -> Result<Message<DoorContent>, AllocError>
    requires ready { is_full cell.old.scheduled ≡ false }
    requires message { has_message_of (machine_in cell.old) ≡ true }
    ensures message { IfOk result (λ message. first_message (machine_in cell.old).outbox.messages ≡ Some message) }
    ensures told { OnOk result (HasTold command.TakeOut cell.old cell.new) }

    ensures unchanged { OnErr result (cell.new ≡ cell.old) }

    // Whatever the answer is.
    ensures ports { length cell.new.ports ≡ length cell.old.ports }
{
    let Some(token) = token_in(cell) else {
        unreachable!()
    };
    match cell.take_out(token) {
        Ok(Some(message)) => Ok(message),
        Ok(None) => unreachable!(),
        Err(_) => Err(AllocError),
    }
}

/// Delivers a message to a door. One that has ended loses it.
fn deliver(cell: &mut Cell<Door>, message: Message<DoorContent>) -> Result<(), AllocError>
    requires ready { is_full cell.old.scheduled ≡ false }
    requires target { message.target ≡ (machine_in cell.old).id }
    ensures told { OnOk result (HasToldBy (source.Message message.sender message.number) (command.Post Info message.content) cell.old cell.new) }

    ensures unchanged { OnErr result (cell.new ≡ cell.old) }

    // Whatever the answer is.
    ensures ports { length cell.new.ports ≡ length cell.old.ports }
{
    match cell.deliver(message) {
        Ok(_posted) => Ok(()),
        Err(refused) => match refused.refusal {
            Refusal::NoMemory => Err(AllocError),
            _ => Ok(()),
        },
    }
}

/// Tells a door that is ready for it a command that is no turn and no take-out, and answers its answer.
pub(crate) fn tell(
    cell: &mut Cell<Door>,
    command: Command<DoorContent>,
) -> Result<DoorAnswer, AllocError>
    requires open { IsOpen PORT cell.old }
    requires ready { is_full cell.old.scheduled ≡ false }
    requires no_turn { serves command ≡ false }
    ensures answer { IfOk result (λ answer. answer ≡ (step_of door_callbacks (machine_in cell.old) command).0) }
    ensures told { OnOk result (HasTold command cell.old cell.new) }

    ensures unchanged { OnErr result (cell.new ≡ cell.old) }

    // Whatever the answer is.
    ensures ports { length cell.new.ports ≡ length cell.old.ports }
{
    match command {
        Command::Post(entry, content) => post(cell, entry, content),
        Command::Tick(moment) => tick(cell, moment),
        Command::Turn(_) | Command::TakeOut => unreachable!(),
        Command::Reply(tag, content) => reply(cell, tag, content),
        Command::Collect(tag) => collect(cell, tag),
        Command::Stop(reason) => stop(cell, reason),
    }
}

/// Serves a door that is ready for it, and answers the message that comes out.
pub(crate) fn serve(
    cell: &mut Cell<Door>,
    service: Service,
) -> Result<Option<Message<DoorContent>>, AllocError>
    requires ready { is_full cell.old.scheduled ≡ false }
    requires can { CanServe service (machine_in cell.old) }
    ensures message { IfOk result (λ message. message ≡ message_from service (machine_in cell.old)) }
    ensures told { OnOk result (HasToldBy (source_for service) (command_for service) cell.old cell.new) }

    ensures unchanged { OnErr result (cell.new ≡ cell.old) }

    // Whatever the answer is.
    ensures ports { length cell.new.ports ≡ length cell.old.ports }
{
    match service {
        Service::Turn(moment) => turn(cell, moment)?,
        Service::TakeOut => return Ok(Some(take_out(cell)?)),
        Service::Deliver(message) => deliver(cell, message)?,
    }
    Ok(None)
}
