//! Commands that can be told again.
use super::host::{Host, holds};
use super::reserved::with_reserved;
use super::row::Row;
use super::shown::Shown;
use st_core::{Command, Entry, MachineId, Reason, Refusal, Tag};
use std::alloc::{AllocError, Global};
use std::process::Abort;

pub const ID: MachineId = MachineId { slot: 0, serial: 1 };

/// The first request to the machine.
pub const FIRST: Tag = Tag {
    machine: ID,
    request: 1,
};

/// The second request to the machine.
pub const SECOND: Tag = Tag {
    machine: ID,
    request: 2,
};

/// The third request to the machine.
pub const THIRD: Tag = Tag {
    machine: ID,
    request: 3,
};

/// The tag of the request that a post with this number opens.
pub fn tag(request: u64) -> Tag {
    Tag {
        machine: ID,
        request,
    }
}

/// A command that can be told again.
#[derive(Copy)]
pub enum Told {
    /// A post of a content, as a cast.
    Cast(u32),
    /// The same as an info.
    Info(u32),
    /// The same as a call.
    Call(u32),
    Tick(u64),
    Turn(u64),
    Reply(Tag, u32),
    Collect(Tag),
    Stop(Reason),
    TakeOut,
}

impl Clone for Told {
    fn clone(&self) -> Result<Told, AllocError> {
        Ok(*self)
    }
}

/// What a command answers that finds no memory. A reply, a collect and a take-out take none, so they always answer.
pub fn without_memory(told: Told) -> Shown {
    match told {
        Told::Cast(content) => Shown::NotPosted(Refusal::NoMemory, content),
        Told::Info(content) => Shown::NotPosted(Refusal::NoMemory, content),
        Told::Call(content) => Shown::NotPosted(Refusal::NoMemory, content),
        Told::Tick(_) => Shown::NotTicked(Refusal::NoMemory),
        Told::Turn(_) => Shown::NotTurned(Refusal::NoMemory),
        Told::Reply(_, _) => Shown::Replied(false),
        Told::Collect(_) => Shown::Gone,
        Told::Stop(_) => Shown::NotStopped(Refusal::NoMemory),
        Told::TakeOut => Shown::TakenOut(None),
    }
}

/// The command itself.
fn command_of(told: Told) -> Command<u32> {
    match told {
        Told::Cast(content) => Command::Post(Entry::Cast, content),
        Told::Info(content) => Command::Post(Entry::Info, content),
        Told::Call(content) => Command::Post(Entry::Call, content),
        Told::Tick(now) => Command::Tick(now),
        Told::Turn(now) => Command::Turn(now),
        Told::Reply(tag, content) => Command::Reply(tag, content),
        Told::Collect(tag) => Command::Collect(tag),
        Told::Stop(reason) => Command::Stop(reason),
        Told::TakeOut => Command::TakeOut,
    }
}

/// The commands of a run. Where memory was refused, it is asked for again.
pub fn commands(rt: &Host<impl Abort>, alloc: Global, rows: &[Row]) -> Vec<Command<u32>> {
    let mut commands = with_reserved(rt, alloc, rows.len());
    for row in rows {
        let pushed = commands.push(command_of(row.told()));
        holds(rt, "there is a place for each command", pushed.is_ok());
    }
    commands
}

/// Says whether this is the command.
fn is_command(command: &Command<u32>, told: Told) -> bool {
    *command == command_of(told)
}

/// Says whether these are the commands of a run.
pub fn are_commands(commands: &[Command<u32>], rows: &[Row]) -> bool {
    for place in 0..rows.len() {
        match commands.get(place) {
            Some(command) if is_command(command, rows[place].told()) => {}
            _ => return false,
        }
    }
    commands.len() == rows.len()
}
