//! A call is answered, and the machine is stopped.
use super::answers::{begin, goes, keeps, stops};
use super::did::{Did, NOTHING};
use super::host::{Host, got, holds, is_number, same};
use super::hosted::{Hosted, ID};
use st_core::{Collected, Done, Entry};
use st_events::{Action, Kind, Refusal, Tag};
use st_hosted::{Payload, stop_by};
use std::alloc::Global;
use std::process::Abort;

/// The call, which is the first event.
const CALL: Tag = Tag {
    machine: ID,
    request: 1,
};

/// The start: the state is entered.
static START: Did = Did {
    done: Done::Started,
    ..NOTHING
};

/// The call is answered.
static ANSWERED: Did = Did {
    event: Some(1),
    replied: Some(CALL),
    ..NOTHING
};

/// A content with two bytes. Where there is no memory for them, it is made again.
fn reply(rt: &Host<impl Abort>, alloc: Global) -> Payload {
    match Payload::of(alloc, 8, b"ok") {
        Ok(payload) => payload,
        Err(_) => {
            rt.retry();
            let payload = Payload::of(alloc, 8, b"ok");
            got(rt, "one allocation alone is refused", payload)
        }
    }
}

/// The reply is what was answered.
fn collects(rt: &Host<impl Abort>, machine: &mut Hosted) {
    match machine.core.collect(CALL) {
        Collected::Reply(payload) => {
            is_number(rt, "its number", payload.code, 8);
            holds(
                rt,
                "its bytes",
                payload.bytes.as_slice() == b"ok".as_slice(),
            );
        }
        _ => panic!(rt; "there is no reply"),
    }
}

/// It is stopped, once.
fn stops_once(rt: &Host<impl Abort>, machine: &mut Hosted) {
    let word = got(rt, "a stop", stop_by(&mut machine.core, 3, stops(0, 9)));
    is_number(rt, "its last word", u64::from(word), 9);
    match stop_by(&mut machine.core, 4, stops(0, 10)) {
        Ok(_) => panic!(rt; "it stops again"),
        Err(refused) => same(rt, "why not", &refused.refusal, &Refusal::Stopped(3)),
    }
}

#[test]
fn a_reply_is_collected_and_a_stop_gives_the_last_word(rt: HostRuntime) {
    let rt = Host::new(rt);
    let alloc = rt.alloc();
    let begin = begin(alloc, 0, 0);
    let mut machine = Hosted::begun(&rt, alloc, goes(alloc, 0, 0), &begin, &START);
    machine.post(&rt, alloc, Entry::Call, 7, 1);
    machine.shows(&rt, 1, Kind::Call(CALL), 7);
    let replies = Action::Reply(CALL, reply(&rt, alloc));
    let answers = keeps(&rt, alloc, replies);
    machine.turn(&rt, 1, answers, 0, &ANSWERED);
    collects(&rt, &mut machine);
    stops_once(&rt, &mut machine);
    rt.end();
}
