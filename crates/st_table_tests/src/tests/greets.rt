//! A clerk as a table: what is said to it are texts.
use super::building::{list, text};
use super::clerk::{BYE, GREET, KNOWN, ME, QUIT, STRANGER, WHO, clerk};
use super::did::{Did, NOTHING};
use super::host::{Host, holds};
use super::machine::{ID, Machine, module, signal, started};
use st_core::{Collected, Decision, Done, Entry, PlainList, Start, Tag, Time, Timer};
use st_table::Value;
use std::alloc::Global;
use std::process::Abort;

/// The start: a timer is set, whose time-out takes the number 1.
static START: Did = Did {
    done: Done::Started,
    set: Some((Timer::Named(8), Decision::Set(Time::After(500)))),
    longest: 1,
    ..NOTHING
};

/// Call 2 is answered.
static SECOND: Did = Did {
    event: Some(2),
    replied: Some(Tag {
        machine: ID,
        request: 2,
    }),
    longest: 1,
    ..NOTHING
};

/// Call 3 is answered.
static THIRD: Did = Did {
    event: Some(3),
    replied: Some(Tag {
        machine: ID,
        request: 3,
    }),
    longest: 1,
    ..NOTHING
};

/// Call 4 is answered.
static FOURTH: Did = Did {
    event: Some(4),
    replied: Some(Tag {
        machine: ID,
        request: 4,
    }),
    longest: 1,
    ..NOTHING
};

/// The time-out ends it, without a reply; the last word is the reason and one.
static RUNG: Did = Did {
    event: Some(1),
    done: Done::Ended(5, 6),
    ..NOTHING
};

/// It says goodbye, and ends.
static QUITS: Did = Did {
    event: Some(2),
    done: Done::Ended(3, 4),
    replied: Some(Tag {
        machine: ID,
        request: 2,
    }),
    longest: 1,
    ..NOTHING
};

/// A clerk of this name.
fn named(rt: &Host<impl Abort>, alloc: Global, name: &str) -> Machine {
    let interpreter = module(rt, alloc, clerk(rt, alloc));
    let given = list(rt, alloc, [text(rt, alloc, name)]);
    Machine::begun(rt, alloc, interpreter, &given, &START)
}

/// The reply to a call, which is this.
fn replied(
    rt: &Host<impl Abort>,
    machine: &mut Machine,
    request: u64,
    symbol: u32,
    argument: Value,
) {
    let reply = machine.core.collect(Tag {
        machine: ID,
        request,
    });
    let wanted = Collected::Reply(signal(symbol, argument));
    holds(rt, "a reply", reply == wanted);
}

/// It is greeted by one of its name, and by another; and asked who it is.
fn is_greeted(rt: &Host<impl Abort>, alloc: Global, machine: &mut Machine) {
    machine.post(rt, Entry::Call, signal(GREET, text(rt, alloc, "ann")), 2);
    machine.turn(rt, 1, &SECOND);
    replied(rt, machine, 2, KNOWN, text(rt, alloc, "ann"));
    machine.post(rt, Entry::Call, signal(GREET, text(rt, alloc, "bob")), 3);
    machine.turn(rt, 1, &THIRD);
    replied(rt, machine, 3, STRANGER, text(rt, alloc, "bob"));
    machine.post(rt, Entry::Call, signal(WHO, Value::Nothing), 4);
    machine.turn(rt, 1, &FOURTH);
    replied(rt, machine, 4, ME, Value::Machine(ID));
}

#[test]
fn texts_are_compared_and_replied(rt: HostRuntime) {
    let rt = Host::new(rt);
    let alloc = rt.alloc();
    let mut machine = named(&rt, alloc, "ann");
    machine.register(&rt, 0, &text(&rt, alloc, "ann"));
    is_greeted(&rt, alloc, &mut machine);
    machine.tick(&rt, 500, 1);
    machine.turn(&rt, 500, &RUNG);
    rt.end();
}

#[test]
fn a_stop_with_a_reply_sends_it(rt: HostRuntime) {
    let rt = Host::new(rt);
    let alloc = rt.alloc();
    let mut machine = named(&rt, alloc, "ann");
    machine.post(&rt, Entry::Call, signal(QUIT, Value::Nothing), 2);
    machine.turn(&rt, 1, &QUITS);
    replied(&rt, &mut machine, 2, BYE, text(&rt, alloc, "ann"));
    holds(&rt, "it has ended", machine.core.ended() == Some((3, 4)));
    rt.end();
}

/// What a start says that gives no machine: nothing where it is ignored, or the reason.
fn refused(rt: &Host<impl Abort>, alloc: Global, given: PlainList<Value>) -> Option<u32> {
    let interpreter = module(rt, alloc, clerk(rt, alloc));
    match started(rt, alloc, interpreter, &given) {
        Start::Stopped(reason) => Some(reason),
        Start::Ignored => None,
        Start::Running(_, _) => panic!(rt; "it starts"),
    }
}

#[test]
fn a_start_is_stopped_or_ignored(rt: HostRuntime) {
    let rt = Host::new(rt);
    let alloc = rt.alloc();
    let stopped = refused(&rt, alloc, PlainList::new(alloc));
    holds(&rt, "without a name it stops", stopped == Some(4));
    let ignored = refused(&rt, alloc, list(&rt, alloc, [Value::Number(0)]));
    holds(&rt, "with 0 it is ignored", ignored.is_none());
    rt.end();
}
