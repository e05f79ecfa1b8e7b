//! Tests of st_outbox: each call once with memory at hand, and all of them where one allocation is refused.
ghost use Rattle.std.specs.Prelude.{◌≤◌};

use super::host::{Host, got, holds, is_number, same};
use st_events::{CopyContent, MachineId, Message, NUMBER_LIMIT};
use st_outbox::{Outbox, Outgoing};
use std::alloc::{AllocError, Global};
use std::process::Abort;

/// A call of what one machine has sent, and what it is to answer, which stands last.
#[derive(Clone, Copy)]
enum Call {
    /// A letter is sent to the machine of a serial.
    Send(u64, char),
    /// The first message is taken out: its number, the serial of its target, and its letter.
    Take(Option<(u64, u64, char)>),
    /// Memory is got for so many messages more.
    Reserve(usize),
    /// The number that the next message gets.
    Next(u64),
}

/// The machine of a serial.
fn machine(serial: u64) -> MachineId {
    MachineId { slot: 2, serial }
}

/// A message of the first machine: its number, the serial of its target, and its letter.
fn message(row: (u64, u64, char)) -> Message<char> {
    Message {
        sender: machine(1),
        number: row.0,
        target: machine(row.1),
        content: row.2,
    }
}

/// Copies letters.
#[derive(Drop)]
struct Letters;

impl CopyContent<char> for Letters {
    fn copy_of(&self, _alloc: Global, content: &char) -> Result<char, AllocError> {
        Ok(*content)
    }
}

/// A copy. Where it finds no memory, it is made again.
fn copied(rt: &Host<impl Abort + AllocGlobal>, outgoing: &Outgoing<char>) -> Outbox<char> {
    if let Ok(copy) = outgoing.copy(rt.alloc(), &Letters) {
        return copy;
    }
    rt.retry();
    let copy = outgoing.copy(rt.alloc(), &Letters);
    got(rt, "one allocation alone is refused", copy)
}

/// Looks at all that can be read.
fn shows(rt: &Host<impl Abort + AllocGlobal>, outgoing: &Outgoing<char>, wanted: &Outbox<char>) {
    same(rt, "what was sent", &copied(rt, outgoing), wanted);
    let first = wanted.messages.get(0);
    holds(rt, "the first message", outgoing.first() == first);
    let waits = outgoing.has_messages();
    holds(rt, "if one waits", waits == first.is_some());
    next(rt, outgoing, wanted.next_number);
}

/// Reserves for so many. A call that finds no memory changes nothing that can be read, and is made again.
fn reserve_for(rt: &Host<impl Abort + AllocGlobal>, outgoing: &mut Outgoing<char>, count: usize)
    ensures { count ≤ outgoing.new.reserved }
{
    let before = copied(rt, outgoing);
    if outgoing.reserve(count).is_err() {
        shows(rt, outgoing, &before);
        rt.retry();
        got(
            rt,
            "one allocation alone is refused",
            outgoing.reserve(count),
        );
    }
}

/// The first machine sends a letter to the machine of a serial.
fn send(
    rt: &Host<impl Abort + AllocGlobal>,
    outgoing: &mut Outgoing<char>,
    serial: u64,
    letter: char,
) {
    reserve_for(rt, outgoing, 1);
    let is_left = outgoing.next_number() < NUMBER_LIMIT;
    holds(rt, "a number is left", is_left);
    outgoing.send(machine(1), machine(serial), letter);
}

/// Takes the first message out, which was shown before, and is this one.
fn take(rt: &impl Abort, outgoing: &mut Outgoing<char>, row: Option<(u64, u64, char)>) {
    let wanted = row.map(message);
    let waits = outgoing.has_messages();
    holds(rt, "if one waits", waits == wanted.is_some());
    let is_first = outgoing.first() == wanted.as_ref();
    holds(rt, "the first message", is_first);
    same(rt, "what is taken out", &outgoing.take(), &wanted);
}

/// Looks at the number that the next message gets.
fn next(rt: &impl Abort, outgoing: &Outgoing<char>, number: u64) {
    is_number(rt, "the next number", outgoing.next_number(), number);
}

/// Makes a call, and looks at its answer.
fn make(rt: &Host<impl Abort + AllocGlobal>, outgoing: &mut Outgoing<char>, call: Call) {
    match call {
        Call::Send(serial, letter) => send(rt, outgoing, serial, letter),
        Call::Take(wanted) => take(rt, outgoing, wanted),
        Call::Reserve(count) => reserve_for(rt, outgoing, count),
        Call::Next(number) => next(rt, outgoing, number),
    }
}

/// Makes calls one after the other, and looks at their answers.
fn make_all(rt: &Host<impl Abort + AllocGlobal>, outgoing: &mut Outgoing<char>, calls: &[Call]) {
    for call in calls {
        make(rt, outgoing, *call);
    }
}

#[test]
fn messages_are_taken_out_in_order(rt: HostRuntime) {
    static CALLS: [Call; 12] = [
        Call::Next(1),
        Call::Take(None),
        Call::Send(2, 'a'),
        Call::Send(1, 'b'),
        Call::Take(Some((1, 2, 'a'))),
        Call::Send(2, 'c'),
        Call::Take(Some((2, 1, 'b'))),
        Call::Take(Some((3, 2, 'c'))),
        Call::Take(None),
        Call::Next(4),
        Call::Send(2, 'd'),
        Call::Take(Some((4, 2, 'd'))),
    ];
    let rt = Host::new(rt);
    make_all(&rt, &mut Outgoing::new(rt.alloc()), &CALLS);
    rt.end();
}

#[test]
fn a_refused_call_changes_nothing(rt: HostRuntime) {
    static CALLS: [Call; 12] = [
        Call::Reserve(2),
        Call::Send(2, 'a'),
        Call::Send(3, 'b'),
        Call::Take(Some((1, 2, 'a'))),
        Call::Send(2, 'c'),
        Call::Reserve(20),
        Call::Take(Some((2, 3, 'b'))),
        Call::Send(3, 'd'),
        Call::Reserve(100),
        Call::Take(Some((3, 2, 'c'))),
        Call::Take(Some((4, 3, 'd'))),
        Call::Take(None),
    ];
    let rt = Host::new(rt);
    make_all(&rt, &mut Outgoing::new(rt.alloc()), &CALLS);
    rt.end();
}

/// Looks that a copy is of the second and the third message.
fn has_two(rt: &impl Abort, copy: &Outbox<char>) {
    let wanted = [message((2, 3, 'b')), message((3, 2, 'c'))];
    let found = copy.messages.as_slice();
    holds(rt, "the messages", found == wanted.as_slice());
    holds(rt, "the next number", copy.next_number == 4);
}

#[test]
fn a_copy_stays_as_it_was(rt: HostRuntime) {
    static BEFORE: [Call; 4] = [
        Call::Send(2, 'a'),
        Call::Send(3, 'b'),
        Call::Send(2, 'c'),
        Call::Take(Some((1, 2, 'a'))),
    ];
    static AFTER: [Call; 4] = [
        Call::Take(Some((2, 3, 'b'))),
        Call::Send(3, 'd'),
        Call::Take(Some((3, 2, 'c'))),
        Call::Next(5),
    ];
    let rt = Host::new(rt);
    let mut outgoing = Outgoing::new(rt.alloc());
    make_all(&rt, &mut outgoing, &BEFORE);
    let copy = copied(&rt, &outgoing);
    has_two(&rt, &copy);
    shows(&rt, &outgoing, &copy);
    make_all(&rt, &mut outgoing, &AFTER);
    has_two(&rt, &copy);
    rt.end();
}
