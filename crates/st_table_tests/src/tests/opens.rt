//! A door as a table, from its start to its end.
use super::building::list;
use super::did::{Did, NOTHING};
use super::door::{BUTTON, BUTTONS, CODE_LENGTH, COUNT, LENGTH, LOCKED, OPEN, RELAY, door};
use super::host::{Host, got, holds, is_number};
use super::machine::{ID, Machine, module, signal};
use st_core::{Collected, Decision, Done, Entry, MachineId, PlainList, Tag, Time, Timer};
use st_table::Value;
use std::alloc::Global;
use std::process::Abort;

/// The other door.
const PEER: MachineId = MachineId { slot: 9, serial: 9 };

/// The event time-out, of 30,000 milliseconds.
const FORGETS: Option<(Timer, Decision)> = Some((Timer::Event, Decision::Set(Time::After(30_000))));

/// The state time-out, of 10,000 milliseconds.
const LOCKS: Option<(Timer, Decision)> = Some((Timer::State, Decision::Set(Time::After(10_000))));

/// The call, which is the sixth number.
const CALL: Tag = Tag {
    machine: ID,
    request: 6,
};

/// The start: the locked state is entered.
static START: Did = Did {
    done: Done::Started,
    entered: Some(LOCKED),
    before: LOCKED,
    after: LOCKED,
    ..NOTHING
};

/// The first button counts. The event time-out takes the number 2.
static PRESSED: Did = Did {
    set: FORGETS,
    event: Some(1),
    before: LOCKED,
    after: LOCKED,
    longest: 1,
    ..NOTHING
};

/// The second opens. The state time-out takes the number 4.
static OPENED: Did = Did {
    entered: Some(OPEN),
    after: OPEN,
    set: LOCKS,
    event: Some(3),
    before: LOCKED,
    longest: 1,
    ..NOTHING
};

/// A button of an open door waits.
static WAITS: Did = Did {
    done: Done::PutOff,
    event: Some(5),
    before: OPEN,
    after: OPEN,
    ..NOTHING
};

/// A call is answered.
static ANSWERED: Did = Did {
    replied: Some(CALL),
    event: Some(6),
    before: OPEN,
    after: OPEN,
    longest: 1,
    ..NOTHING
};

/// The state time-out locks the door.
static LOCKED_AGAIN: Did = Did {
    entered: Some(LOCKED),
    after: LOCKED,
    event: Some(4),
    before: OPEN,
    ..NOTHING
};

/// The button that waited comes, and counts. The event time-out takes the number 7.
static RETRIED: Did = Did {
    set: FORGETS,
    event: Some(5),
    before: LOCKED,
    after: LOCKED,
    longest: 1,
    ..NOTHING
};

/// A button is passed on.
static RELAYED: Did = Did {
    sent: Some(1),
    event: Some(8),
    before: LOCKED,
    after: LOCKED,
    longest: 1,
    ..NOTHING
};

/// What a door of the code 12 is given: the code, its size, 10 to that, and the other door.
fn given(rt: &Host<impl Abort>, alloc: Global) -> PlainList<Value> {
    let values = [
        Value::Number(12),
        Value::Number(2),
        Value::Number(100),
        Value::Machine(PEER),
    ];
    list(rt, alloc, values)
}

/// A digit.
fn digit(digit: u64) -> Value {
    Value::Number(digit)
}

/// Two buttons are the code.
fn opens(rt: &Host<impl Abort>, machine: &mut Machine) {
    machine.post(rt, Entry::Cast, signal(BUTTON, digit(1)), 1);
    machine.turn(rt, 1_000, &PRESSED);
    machine.register(rt, BUTTONS as usize, &Value::Number(1));
    machine.register(rt, COUNT as usize, &Value::Number(1));
    machine.post(rt, Entry::Cast, signal(BUTTON, digit(2)), 3);
    machine.turn(rt, 2_000, &OPENED);
    machine.register(rt, COUNT as usize, &Value::Number(0));
}

/// While it is open a button waits, and a call is answered.
fn is_open(rt: &Host<impl Abort>, machine: &mut Machine) {
    machine.post(rt, Entry::Info, signal(BUTTON, digit(7)), 5);
    machine.turn(rt, 3_000, &WAITS);
    machine.post(rt, Entry::Call, signal(CODE_LENGTH, Value::Nothing), 6);
    machine.turn(rt, 3_000, &ANSWERED);
    let reply = machine.core.collect(CALL);
    let wanted = Collected::Reply(signal(LENGTH, Value::Number(2)));
    holds(rt, "the reply", reply == wanted);
}

/// After 10,000 milliseconds it is locked, and the button that waited counts.
fn locks(rt: &Host<impl Abort>, machine: &mut Machine) {
    holds(rt, "it is due", machine.core.next_due() == Some(12_000));
    machine.tick(rt, 12_000, 1);
    machine.turn(rt, 12_000, &LOCKED_AGAIN);
    machine.turn(rt, 12_000, &RETRIED);
    machine.register(rt, BUTTONS as usize, &Value::Number(7));
}

/// A button for the other door is sent there.
fn relays(rt: &Host<impl Abort>, machine: &mut Machine) {
    machine.post(rt, Entry::Cast, signal(RELAY, digit(5)), 8);
    machine.turn(rt, 13_000, &RELAYED);
    let Some(message) = machine.core.take_out() else {
        panic!(rt; "a message")
    };
    holds(rt, "its target", message.target == PEER);
    let wanted = signal(BUTTON, digit(5));
    holds(rt, "its content", message.content == wanted);
}

#[test]
fn a_door_opens_and_is_locked_again(rt: HostRuntime) {
    let rt = Host::new(rt);
    let alloc = rt.alloc();
    let interpreter = module(&rt, alloc, door(&rt, alloc));
    let mut machine = Machine::begun(&rt, alloc, interpreter, &given(&rt, alloc), &START);
    opens(&rt, &mut machine);
    is_open(&rt, &mut machine);
    locks(&rt, &mut machine);
    relays(&rt, &mut machine);
    let word = got(&rt, "a stop", machine.core.stop(7));
    is_number(
        &rt,
        "its last word is how many buttons count",
        u64::from(word),
        1,
    );
    rt.end();
}
