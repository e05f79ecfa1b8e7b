//! What a cell or a shared machine is asked, and what it answers.
use super::reading::Reading;
use st_core::{Collected, Entry, MachineId, Message, Reason, Refusal, Refused, Tag};
use st_events::Token;
use st_lock::{Journal, Look, Next, Service};
use st_scheduled::{Posted, Ticked};

/// A call of a cell or of a shared machine, which can be made again.
#[derive(Clone, Copy)]
pub enum Asked {
    Port,
    Post(u64, Entry, u32),
    Turn(Token, u64),
    TakeOut(Token),
    /// The sender of the message that is delivered, its number and its content.
    Deliver(MachineId, u64, u32),
    /// It is answered as the call that it comes to: a take-out, or else a turn.
    Serve(Token, u64),
    Tick(u64),
    Collect(Tag),
    Reply(Tag, u32),
    Stop(Reason),
    Look(u64),
    Journal(&'static str),
    HandOut(&'static str),
    Cut,
    Ports,
    Token,
    Removable,
    Read,
    Count,
}

impl Asked {
    /// Says whether this is what a look shows that takes no memory, so that it is never refused.
    pub fn is_read(&self) -> bool {
        match self {
            Asked::Ports => true,
            Asked::Token => true,
            Asked::Removable => true,
            Asked::Read => true,
            Asked::Count => true,
            _ => false,
        }
    }
}

/// An answer that is compared as a whole.
#[derive(PartialEq, Drop)]
pub enum Answered {
    Port(Result<u64, Refusal>),
    Posted(Result<Posted, Refused<u32>>),
    Turned(Result<Next, Refused<Token>>),
    TakenOut(Result<Option<Message<u32>>, Refused<Token>>),
    Delivered(Result<Posted, Refused<Message<u32>>>),
    Ticked(Result<Ticked, Refusal>),
    Collected(Result<Collected<u32>, Refusal>),
    Replied(Result<bool, Refused<u32>>),
    Stopped(Result<u32, Refusal>),
    Cut(Result<(), Refusal>),
    Ports(usize),
    Token(Option<Token>),
    Removable(bool),
    Read(Reading),
    Count(u64),
    /// There is no look.
    Unseen(Refusal),
    /// There is no copy of the journal, and it is not handed out.
    Uncopied(Refusal),
    /// No call was made: the port is not open, or this is not told.
    NotOpen,
    /// What no call answers: a look or a copy is wanted, which is compared part by part.
    InParts,
}

impl Answered {
    /// Why the call was refused, if it was.
    pub fn refusal(&self) -> Option<Refusal> {
        match self {
            Answered::Port(Err(refusal)) => Some(*refusal),
            Answered::Posted(Err(refused)) => Some(refused.refusal),
            Answered::Turned(Err(refused)) => Some(refused.refusal),
            Answered::TakenOut(Err(refused)) => Some(refused.refusal),
            Answered::Delivered(Err(refused)) => Some(refused.refusal),
            Answered::Ticked(Err(refusal)) => Some(*refusal),
            Answered::Collected(Err(refusal)) => Some(*refusal),
            Answered::Replied(Err(refused)) => Some(refused.refusal),
            Answered::Stopped(Err(refusal)) => Some(*refusal),
            Answered::Cut(Err(refusal)) => Some(*refusal),
            Answered::Unseen(refusal) => Some(*refusal),
            Answered::Uncopied(refusal) => Some(*refusal),
            _ => None,
        }
    }
}

/// A message to the machine of this id.
fn delivered(id: MachineId, sender: MachineId, number: u64, content: u32) -> Message<u32> {
    Message {
        sender,
        number,
        target: id,
        content,
    }
}

/// What a call of the machine of this id answers that is refused, with what it was given. What is only read is never
/// refused, and has no such answer.
pub fn refused(id: MachineId, asked: Asked, refusal: Refusal) -> Answered {
    match asked {
        Asked::Port => Answered::Port(Err(refusal)),
        Asked::Post(_, _, content) => Answered::Posted(Err(Refused::new(refusal, content))),
        Asked::Turn(token, _) => Answered::Turned(Err(Refused::new(refusal, token))),
        Asked::TakeOut(token) => Answered::TakenOut(Err(Refused::new(refusal, token))),
        Asked::Deliver(sender, number, content) => {
            let message = delivered(id, sender, number, content);
            Answered::Delivered(Err(Refused::new(refusal, message)))
        }
        Asked::Serve(token, _) => Answered::Turned(Err(Refused::new(refusal, token))),
        Asked::Tick(_) => Answered::Ticked(Err(refusal)),
        Asked::Collect(_) => Answered::Collected(Err(refusal)),
        Asked::Reply(_, content) => Answered::Replied(Err(Refused::new(refusal, content))),
        Asked::Stop(_) => Answered::Stopped(Err(refusal)),
        Asked::Look(_) => Answered::Unseen(refusal),
        Asked::Journal(_) | Asked::HandOut(_) => Answered::Uncopied(refusal),
        Asked::Cut => Answered::Cut(Err(refusal)),
        _ => Answered::NotOpen,
    }
}

/// What a call comes to: an answer, or what is compared part by part.
#[derive(Drop)]
pub enum Given {
    Answer(Answered),
    Look(Look<u32, u32>),
    Journal(Journal<u32, u32>),
}

impl Given {
    /// Why the call was refused, if it was.
    pub fn refusal(&self) -> Option<Refusal> {
        match self {
            Given::Answer(answered) => answered.refusal(),
            _ => None,
        }
    }

    /// Says whether a call was made, and not refused.
    pub fn is_done(&self) -> bool {
        match self {
            Given::Answer(Answered::NotOpen) => false,
            Given::Answer(answered) => answered.refusal().is_none(),
            _ => true,
        }
    }

    /// Says whether this is an answer, and this one.
    pub fn is(&self, wanted: &Answered) -> bool {
        match self {
            Given::Answer(answered) => *answered == *wanted,
            _ => false,
        }
    }
}

/// What it came to that a machine was served.
pub fn served(service: Result<Service<u32>, Refused<Token>>) -> Answered {
    match service {
        Ok(Service::Sent(message)) => Answered::TakenOut(Ok(Some(message))),
        Ok(Service::Turned(next)) => Answered::Turned(Ok(next)),
        Err(refused) => Answered::Turned(Err(refused)),
    }
}

/// What a look came to.
pub fn looked(look: Result<Look<u32, u32>, Refusal>) -> Given {
    match look {
        Ok(look) => Given::Look(look),
        Err(refusal) => Given::Answer(Answered::Unseen(refusal)),
    }
}

/// What it came to that the journal was copied or handed out.
pub fn copied(journal: Result<Journal<u32, u32>, Refusal>) -> Given {
    match journal {
        Ok(journal) => Given::Journal(journal),
        Err(refusal) => Given::Answer(Answered::Uncopied(refusal)),
    }
}
