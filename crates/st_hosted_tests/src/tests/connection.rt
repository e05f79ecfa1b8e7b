//! A connection: what comes before its login waits, and silence ends it.
use super::answers::{begin, enters, goes, keeps, stops};
use super::did::{Did, NOTHING};
use super::host::{Host, holds};
use super::hosted::Hosted;
use st_core::{Done, Entry};
use st_events::{Action, Decision, Kind, Refusal, Time, Timer};
use st_hosted::{Payload, WhyNot};
use std::alloc::Global;
use std::process::Abort;

// The codes.
const LOGIN: u64 = 1;

const LINE: u64 = 2;

const IDLE: u64 = 3;

// The states.
const NEW: u64 = 0;

const LOGGED_IN: u64 = 1;

/// The event time-out, of 500 milliseconds.
const IDLE_TIME: Time = Time::After(500);

/// The start: the state is entered, to which nothing is answered.
static START: Did = Did {
    done: Done::Started,
    ..NOTHING
};

/// A line before the login is postponed.
static EARLY: Did = Did {
    event: Some(1),
    done: Done::PutOff,
    ..NOTHING
};

/// The login leads to the next state, which is entered.
static LOGIN_TAKEN: Did = Did {
    event: Some(2),
    calls: 2,
    after: LOGGED_IN,
    ..NOTHING
};

/// The line that waited comes then. The event time-out takes the number 3.
static LINE_TAKEN: Did = Did {
    event: Some(1),
    after: LOGGED_IN,
    set: Some((Timer::Event, Decision::Set(IDLE_TIME))),
    ..NOTHING
};

/// Silence ends the connection, for the reason 5 and with the word 77.
static SILENT: Did = Did {
    event: Some(3),
    done: Done::Ended(5, 77),
    calls: 2,
    after: LOGGED_IN,
    ..NOTHING
};

/// A line comes first, and waits: there is no next event then.
fn comes_early(rt: &Host<impl Abort>, alloc: Global, machine: &mut Hosted) {
    machine.post(rt, alloc, Entry::Cast, LINE, 1);
    machine.shows(rt, 1, Kind::Cast, LINE);
    let answers = keeps(rt, alloc, Action::Postpone(true));
    machine.turn(rt, 1, answers, 100, &EARLY);
    machine.refuses(rt, 1, goes(alloc, NEW, 0), 100, WhyNot::NotNext);
}

/// The login comes. Answered once, it is not answered again.
fn logs_in(rt: &Host<impl Abort>, alloc: Global, machine: &mut Hosted) {
    machine.post(rt, alloc, Entry::Cast, LOGIN, 2);
    machine.shows(rt, 2, Kind::Cast, LOGIN);
    let answers = enters(alloc, LOGGED_IN, 42, 43);
    machine.turn(rt, 2, answers, 200, &LOGIN_TAKEN);
    machine.data(rt, 43);
    machine.refuses(rt, 2, goes(alloc, NEW, 0), 200, WhyNot::NotNext);
    machine.data(rt, 43);
}

/// The line that waited comes, and the event time-out is set.
fn goes_on(rt: &Host<impl Abort>, alloc: Global, machine: &mut Hosted) {
    machine.shows(rt, 1, Kind::Cast, LINE);
    let idle = Action::Set(Timer::Event, IDLE_TIME, Payload::new(alloc, IDLE));
    let answers = keeps(rt, alloc, idle);
    machine.turn(rt, 1, answers, 300, &LINE_TAKEN);
    holds(rt, "it is due", machine.core.next_due() == Some(800));
}

/// Nothing comes until the time-out expires.
fn falls_silent(rt: &Host<impl Abort>, alloc: Global, machine: &mut Hosted) {
    machine.tick(rt, 800, 1);
    machine.shows(rt, 3, Kind::Timeout(Timer::Event), IDLE);
    machine.turn(rt, 3, stops(5, 77), 800, &SILENT);
    let stopped = WhyNot::Refused(Refusal::Stopped(5));
    machine.refuses(rt, 3, goes(alloc, NEW, 0), 900, stopped);
}

#[test]
fn a_connection_takes_early_lines_after_its_login_and_ends_in_silence(rt: HostRuntime) {
    let rt = Host::new(rt);
    let alloc = rt.alloc();
    let begin = begin(alloc, NEW, 0);
    let mut machine = Hosted::begun(&rt, alloc, goes(alloc, NEW, 0), &begin, &START);
    comes_early(&rt, alloc, &mut machine);
    logs_in(&rt, alloc, &mut machine);
    goes_on(&rt, alloc, &mut machine);
    falls_silent(&rt, alloc, &mut machine);
    rt.end();
}
