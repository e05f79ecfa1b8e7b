//! A start whose host asks for something, and enter calls to which it answers nothing.
use super::answers::{goes, one};
use super::did::{Did, NOTHING};
use super::host::Host;
use super::hosted::Hosted;
use st_core::Done;
use st_events::{Action, Kind};
use st_hosted::{Begin, Payload};

/// The start: the state is entered, and an event is inserted.
static START: Did = Did {
    done: Done::Started,
    inserted: Some(1),
    after: 6,
    ..NOTHING
};

/// The event leads to another state, which is entered.
static LEFT: Did = Did {
    event: Some(1),
    calls: 2,
    after: 7,
    ..NOTHING
};

#[test]
fn a_start_inserts_an_event_and_an_enter_call_without_an_answer_keeps_the_data(rt: HostRuntime) {
    let rt = Host::new(rt);
    let alloc = rt.alloc();
    let first = Action::NextEvent(Kind::Internal, Payload::new(alloc, 4));
    let begin = Begin {
        state: 6,
        data: 60,
        actions: one(&rt, alloc, first),
    };
    let mut machine = Hosted::begun(&rt, alloc, goes(alloc, 0, 0), &begin, &START);
    machine.data(&rt, 60);
    machine.shows(&rt, 1, Kind::Internal, 4);
    machine.turn(&rt, 1, goes(alloc, 7, 70), 0, &LEFT);
    machine.data(&rt, 70);
    rt.end();
}
