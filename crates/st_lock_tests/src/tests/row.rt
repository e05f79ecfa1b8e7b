//! Rows: a call, what it is to answer, and the entry that it is to have.
use super::asked::{Answered, Asked, refused};
use super::did::{Did, Handled};
use super::plain::OTHER;
use super::reading::Reading;
use st_cell::Source;
use st_core::{Answer, Collected, Command, Entry, MachineId, Message, Reason, Refusal, Tag};
use st_events::Token;
use st_lock::Next;
use st_scheduled::{Posted, Ticked};

/// What is to be seen through a port, of a machine in the state 0 with the data 7.
#[derive(Clone, Copy)]
pub struct Sight {
    pub waiting: usize,
    pub entries: u64,
    pub mine: u64,
    pub numbers: &'static [u64],
    pub ended: Option<(Reason, u32)>,
}

/// What an entry is to say that was answered.
#[derive(Drop)]
pub enum Told {
    /// This answer.
    Answer(Answer<u32, u32>),
    /// The report of a turn that handled this event, and did this.
    Turned(Handled, Did),
}

/// The entry that a call is to have.
#[derive(Drop)]
pub struct Line {
    pub number: u64,
    pub source: Source,
    pub command: Command<u32>,
    pub told: Told,
}

/// What a port posts: the port, how, and a content.
pub type Post = (u64, Entry, u32);

/// What is delivered: the message's sender, its number and its content.
pub type Delivery = (MachineId, u64, u32);

/// A message of the machine of this id to the other one, with this number and this content.
fn message(id: MachineId, number: u64, content: u32) -> Message<u32> {
    Message {
        sender: id,
        number,
        target: OTHER,
        content,
    }
}

/// A call, and what it is to answer. Where it is to have an entry, that entry's number comes first.
#[derive(Clone, Copy)]
pub enum Row {
    /// The next port is opened, and this is its number.
    Opens(u64),
    /// A port posts an event, which gets this number; and the token is issued, if one is.
    Posts(u64, Post, u64, Option<Token>),
    /// The machine is served by a token, at a moment: what becomes of the token, the event that is handled, and what is
    /// done.
    Turns(u64, Token, u64, Next, Handled, Did),
    /// The first message, which has this number and this content, is taken out by a token.
    Takes(u64, Token, u64, u32),
    /// A message is delivered, whose event gets this number; and the token is issued, if one is.
    Delivers(u64, Delivery, u64, Option<Token>),
    /// The machine is served by a token, at a moment, and its first message is taken out: its number and its content.
    ServesMessage(u64, Token, u64, u64, u32),
    /// The machine is served by a token, at a moment, and a turn is made, as `Turns` says.
    ServesTurn(u64, Token, u64, Next, Handled, Did),
    /// The machine is told the moment: so many time-outs expire; and the token is issued, if one is.
    Ticks(u64, u64, u64, Option<Token>),
    /// A request is answered with a content, which is taken or not.
    Replies(u64, Tag, u32, bool),
    /// The reply to a request is handed out.
    Collects(u64, Tag, u32),
    /// The reason is handed out for which the machine has ended before it replied.
    CollectsReason(u64, Tag, Reason),
    /// The machine is stopped for a reason, with this last word.
    Stops(u64, Reason, u32),
    /// Nothing is handed out: no reply has come to the request.
    Waits(Tag),
    /// Nothing is handed out: nothing is kept for the request.
    Misses(Tag),
    /// The token of a machine that has no work, or has ended, is retired at a moment, with no turn.
    Rests(Token, u64),
    /// The same, where the machine is served by the token.
    ServesRest(Token, u64),
    /// The token of a machine that has no event for a turn, or has ended, and has a message, stays outstanding at a
    /// moment, with no turn.
    Stays(Token, u64),
    /// Nothing is taken out by a token: there is no message.
    TakesNone(Token),
    /// A look through a port.
    Looks(u64, Sight),
    /// A copy of the journal, with a label; the machine had seen this moment before the first entry.
    Copies(&'static str, u64),
    /// What is printed of the journal, with a label.
    Prints(&'static str, &'static str),
    /// The journal is handed out, with a label: the machine had seen this moment before the first entry, and the entries
    /// have these numbers. It is the last row of a list.
    HandsOut(&'static str, u64, &'static [u64]),
    /// The journal is cut.
    Cuts,
    /// So many ports are open.
    HasPorts(usize),
    /// The outstanding token is this one.
    HasToken(Option<Token>),
    /// The machine can be removed, or cannot.
    Removable(bool),
    /// What is read of the machine.
    Reads(Reading),
    /// So many commands were told in all, and the machine had seen this moment before the first entry of the journal.
    Counts(u64, u64),
    /// A call is refused, and gives back what it was given.
    Refuses(Asked, Refusal),
}

impl Row {
    /// The call.
    pub fn asked(&self) -> Asked {
        match *self {
            Row::Opens(_) => Asked::Port,
            Row::Posts(_, (port, how, content), _, _) => Asked::Post(port, how, content),
            Row::Turns(_, token, now, _, _, _) => Asked::Turn(token, now),
            Row::Ticks(_, now, _, _) => Asked::Tick(now),
            Row::Replies(_, tag, content, _) => Asked::Reply(tag, content),
            Row::Collects(_, tag, _) => Asked::Collect(tag),
            Row::CollectsReason(_, tag, _) => Asked::Collect(tag),
            Row::Stops(_, reason, _) => Asked::Stop(reason),
            Row::Waits(tag) => Asked::Collect(tag),
            Row::Misses(tag) => Asked::Collect(tag),
            Row::Takes(_, token, _, _) => Asked::TakeOut(token),
            Row::Delivers(_, (sender, number, content), _, _) => {
                Asked::Deliver(sender, number, content)
            }
            Row::ServesMessage(_, token, now, _, _) => Asked::Serve(token, now),
            Row::ServesTurn(_, token, now, _, _, _) => Asked::Serve(token, now),
            Row::Rests(token, now) => Asked::Turn(token, now),
            Row::ServesRest(token, now) => Asked::Serve(token, now),
            Row::Stays(token, now) => Asked::Turn(token, now),
            Row::TakesNone(token) => Asked::TakeOut(token),
            Row::Refuses(asked, _) => asked,
            _ => self.read(),
        }
    }

    /// The call, where it is about the journal or only reads.
    fn read(&self) -> Asked {
        match *self {
            Row::Looks(port, _) => Asked::Look(port),
            Row::Copies(label, _) => Asked::Journal(label),
            Row::Prints(label, _) => Asked::Journal(label),
            Row::HandsOut(label, _, _) => Asked::HandOut(label),
            Row::HasPorts(_) => Asked::Ports,
            Row::HasToken(_) => Asked::Token,
            Row::Removable(_) => Asked::Removable,
            Row::Reads(_) => Asked::Read,
            Row::Counts(_, _) => Asked::Count,
            _ => Asked::Cut,
        }
    }

    /// Says whether the journal is handed out.
    pub fn hands_out(&self) -> bool {
        matches!(self, Row::HandsOut(_, _, _))
    }

    /// What the call is to answer of the machine of this id.
    pub fn answer(&self, id: MachineId) -> Answered {
        match *self {
            Row::Opens(number) => Answered::Port(Ok(number)),
            Row::Posts(_, _, number, wake) => Answered::Posted(Ok(Posted { number, wake })),
            Row::Turns(_, _, _, next, _, _) => Answered::Turned(Ok(next)),
            Row::Ticks(_, _, expired, wake) => Answered::Ticked(Ok(Ticked { expired, wake })),
            Row::Replies(_, _, _, taken) => Answered::Replied(Ok(taken)),
            Row::Collects(_, _, content) => Answered::Collected(Ok(Collected::Reply(content))),
            Row::CollectsReason(_, _, reason) => {
                Answered::Collected(Ok(Collected::Stopped(reason)))
            }
            Row::Stops(_, _, word) => Answered::Stopped(Ok(word)),
            Row::Waits(_) => Answered::Collected(Ok(Collected::Waiting)),
            Row::Misses(_) => Answered::Collected(Ok(Collected::Gone)),
            Row::Takes(_, _, number, content) | Row::ServesMessage(_, _, _, number, content) => {
                Answered::TakenOut(Ok(Some(message(id, number, content))))
            }
            Row::Delivers(_, _, number, wake) => Answered::Delivered(Ok(Posted { number, wake })),
            Row::ServesTurn(_, _, _, next, _, _) => Answered::Turned(Ok(next)),
            Row::Rests(_, _) | Row::ServesRest(_, _) => Answered::Turned(Ok(Next::Rest)),
            Row::Stays(token, _) => Answered::Turned(Ok(Next::Again(token))),
            Row::TakesNone(_) => Answered::TakenOut(Ok(None)),
            Row::Refuses(asked, refusal) => refused(id, asked, refusal),
            _ => self.shown(),
        }
    }

    /// What the call is to answer that is about the journal or only reads; a look and a journal are compared part by
    /// part.
    fn shown(&self) -> Answered {
        match *self {
            Row::Cuts => Answered::Cut(Ok(())),
            Row::HasPorts(ports) => Answered::Ports(ports),
            Row::HasToken(token) => Answered::Token(token),
            Row::Removable(can) => Answered::Removable(can),
            Row::Reads(reading) => Answered::Read(reading),
            Row::Counts(count, _) => Answered::Count(count),
            _ => Answered::InParts,
        }
    }

    /// The entry that the call of the machine of this id is to have, if it is to have one.
    pub fn line(&self, id: MachineId) -> Option<Line> {
        match *self {
            Row::Posts(number, (port, how, content), event, _) => Some(Line {
                number,
                source: Source::Port(port),
                command: Command::Post(how, content),
                told: Told::Answer(Answer::Post(Ok(event))),
            }),
            Row::Takes(number, _, sent, content)
            | Row::ServesMessage(number, _, _, sent, content) => Some(Line {
                number,
                source: Source::Caller,
                command: Command::TakeOut,
                told: Told::Answer(Answer::TakeOut(Some(message(id, sent, content)))),
            }),
            Row::Delivers(number, (sender, sent, content), event, _) => Some(Line {
                number,
                source: Source::Message(sender, sent),
                command: Command::Post(Entry::Info, content),
                told: Told::Answer(Answer::Post(Ok(event))),
            }),
            Row::Turns(number, _, now, _, handled, did)
            | Row::ServesTurn(number, _, now, _, handled, did) => Some(Line {
                number,
                source: Source::Caller,
                command: Command::Turn(now),
                told: Told::Turned(handled, did),
            }),
            Row::Ticks(number, now, expired, _) => Some(Line {
                number,
                source: Source::Caller,
                command: Command::Tick(now),
                told: Told::Answer(Answer::Tick(Ok(expired))),
            }),
            Row::Replies(number, tag, content, taken) => Some(Line {
                number,
                source: Source::Caller,
                command: Command::Reply(tag, content),
                told: Told::Answer(Answer::Reply(taken)),
            }),
            Row::Collects(number, tag, content) => Some(Line {
                number,
                source: Source::Caller,
                command: Command::Collect(tag),
                told: Told::Answer(Answer::Collect(Collected::Reply(content))),
            }),
            Row::CollectsReason(number, tag, reason) => Some(Line {
                number,
                source: Source::Caller,
                command: Command::Collect(tag),
                told: Told::Answer(Answer::Collect(Collected::Stopped(reason))),
            }),
            Row::Stops(number, reason, word) => Some(Line {
                number,
                source: Source::Caller,
                command: Command::Stop(reason),
                told: Told::Answer(Answer::Stop(Ok(word))),
            }),
            _ => None,
        }
    }

    /// Says whether the call may find no memory: where it has an entry, but for a stop, whose place is reserved; a turn
    /// that finds too few numbers left; and what makes a list or a copy.
    pub fn takes_memory(&self) -> bool {
        match *self {
            Row::Opens(_) => true,
            Row::Posts(_, _, _, _) => true,
            Row::Turns(_, _, _, _, _, _) => true,
            Row::Takes(_, _, _, _) => true,
            Row::Delivers(_, _, _, _) => true,
            Row::ServesMessage(_, _, _, _, _) => true,
            Row::ServesTurn(_, _, _, _, _, _) => true,
            Row::Ticks(_, _, _, _) => true,
            Row::Replies(_, _, _, _) => true,
            Row::Collects(_, _, _) => true,
            Row::CollectsReason(_, _, _) => true,
            Row::Looks(_, _) => true,
            Row::Copies(_, _) => true,
            Row::Prints(_, _) => true,
            Row::HandsOut(_, _, _) => true,
            Row::Cuts => true,
            Row::Refuses(Asked::Turn(_, _), Refusal::Exhausted) => true,
            _ => false,
        }
    }
}
