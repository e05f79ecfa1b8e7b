//! Two hosted machines of a table. The first is told all, the second stays as it was.
use super::host::{Host, got, holds, is_number, same};
use st_core::{Collected, Entry};
use st_embedded::{
    Lists, Machines, collect_at, id_of, post_at, remove_at, reply_at, start_hosted, stop_hosted,
    take_out_at, tick_at, turn_hosted,
};
use st_events::{Action, Decision, Kind, MachineId, PlainList, Refusal, Tag, Time, Timer};
use st_hosted::{Begin, HostAnswer, HostOutcome, Payload, WhyNot};
use std::alloc::Global;
use std::process::Abort;

/// The first machine.
const FIRST: MachineId = MachineId { slot: 0, serial: 1 };

/// Its first call.
const CALL: Tag = Tag {
    machine: FIRST,
    request: 1,
};

/// What is answered to an event, to no enter call and at no end.
fn answer(outcome: HostOutcome) -> HostAnswer {
    HostAnswer {
        enters: false,
        outcome,
        entered: None,
        word: 0,
    }
}

/// The machine is to be in this state, with data that are ten times its number.
fn goes(alloc: Global, state: u32) -> HostAnswer {
    let state = u64::from(state);
    answer(HostOutcome::NextState(state, 10 * state, PlainList::new(alloc)))
}

/// The call is answered, the event time-out is set, and a message goes to the second machine.
fn asks(rt: &Host<impl Abort>, alloc: Global) -> HostAnswer {
    let actions = [
        Action::Reply(CALL, Payload::new(alloc, 8)),
        Action::Set(Timer::Event, Time::After(500), Payload::new(alloc, 3)),
        Action::Send(id_of(2), Payload::new(alloc, 4)),
    ];
    let actions = got(rt, "the actions", Vec::from_array(alloc, actions));
    answer(HostOutcome::KeepStateAndData(PlainList::from(actions)))
}

/// Starts a machine, which gets this number, in the state 6 with the data 60.
fn starts(rt: &Host<impl Abort>, all: &mut Machines, wanted: u64) {
    let alloc = all.alloc;
    let begin = Begin {
        state: 6,
        data: 60,
        actions: PlainList::new(alloc),
    };
    let started = start_hosted(all, &begin, goes(alloc, 0), 0);
    let (number, report) = got(rt, "a start", started);
    is_number(rt, "a machine's number", number, wanted);
    is_number(rt, "its state", report.after, 6);
}

/// Sees the state and the data of a machine, and how many events wait.
fn shows(rt: &Host<impl Abort>, all: &Machines, number: u64, wanted: (u64, u64, usize)) {
    let found = match all.hosted.get(&number) {
        Some(core) => Some((core.state(), *core.data(), core.waiting())),
        None => None,
    };
    holds(rt, "a machine", found == Some(wanted));
}

/// A call comes to the first machine, and gets this number.
fn calls(rt: &Host<impl Abort>, all: &mut Machines, wanted: u64) {
    let content = Payload::new(all.alloc, 7);
    let number = post_at(&mut all.hosted, 1, Entry::Call, content);
    is_number(rt, "an event's number", got(rt, "a post", number), wanted);
}

/// What is kept for a call of the first machine is this, and is gone then.
fn collects(rt: &Host<impl Abort>, all: &mut Machines, request: u64, wanted: u64) {
    match collect_at(&mut all.hosted, 1, request) {
        Some(Collected::Reply(content)) => is_number(rt, "a reply", content.code, wanted),
        _ => panic!(rt; "there is no reply"),
    }
    let again = collect_at(&mut all.hosted, 1, request);
    holds(rt, "it is gone", matches!(again, Some(Collected::Gone)));
}

/// The turn of the call does what it is to.
fn handles(rt: &Host<impl Abort>, all: &mut Machines) {
    let answers = asks(rt, all.alloc);
    let turned = turn_hosted(&mut all.hosted, 1, 1, answers, 100);
    all.lists = Lists::of(got(rt, "a turn", turned));
    let set = (Timer::Event, Decision::Set(Time::After(500)));
    same(
        rt,
        "replied",
        &all.lists.replied.as_slice(),
        &[CALL].as_slice(),
    );
    is_number(rt, "inserted", all.lists.inserted.len() as u64, 0);
    same(rt, "set", &all.lists.set.as_slice(), &[set].as_slice());
    same(rt, "sent", &all.lists.sent.as_slice(), &[1].as_slice());
}

/// The message is taken out, and there is no other.
fn delivers(rt: &Host<impl Abort>, all: &mut Machines) {
    match take_out_at(&mut all.hosted, 1) {
        Some(Some(message)) => {
            let found = (
                message.sender,
                message.target,
                message.number,
                message.content.code,
            );
            holds(rt, "a message", found == (FIRST, id_of(2), 1, 4));
        }
        _ => panic!(rt; "there is no message"),
    }
    holds(
        rt,
        "one",
        matches!(take_out_at(&mut all.hosted, 1), Some(None)),
    );
}

/// The time-out that was set at 100 expires at 600, and its event, the second, is handled.
fn expires(rt: &Host<impl Abort>, all: &mut Machines) {
    let early = got(rt, "a tick", tick_at(&mut all.hosted, 1, 599));
    is_number(rt, "not yet", early, 0);
    let expired = got(rt, "a tick", tick_at(&mut all.hosted, 1, 600));
    is_number(rt, "it expires", expired, 1);
    let event = match all.hosted.get(&1) {
        Some(core) => match core.next() {
            Some((event, kind, content)) => Some((event, kind, content.code)),
            None => None,
        },
        None => None,
    };
    holds(
        rt,
        "its event",
        event == Some((2, Kind::Timeout(Timer::Event), 3)),
    );
    let answers = goes(all.alloc, 5);
    let turned = turn_hosted(&mut all.hosted, 1, 2, answers, 600);
    let report = got(rt, "a turn", turned);
    is_number(rt, "where it leads", report.after, 5);
}

/// A number that names no machine is refused.
fn is_nobody(rt: &Host<impl Abort>, all: &mut Machines, number: u64) {
    let alloc = all.alloc;
    let nobody = Refusal::NoSuchMachine;
    let machines = &mut all.hosted;
    match post_at(machines, number, Entry::Cast, Payload::new(alloc, 7)) {
        Ok(_) => panic!(rt; "it was posted"),
        Err(refused) => holds(
            rt,
            "a post",
            refused.refusal == nobody && refused.value.code == 7,
        ),
    }
    holds(rt, "a tick", tick_at(machines, number, 1) == Err(nobody));
    match turn_hosted(machines, number, 1, goes(alloc, 1), 1) {
        Ok(_) => panic!(rt; "a turn was made"),
        Err(why) => same(rt, "a turn", &why, &WhyNot::Refused(nobody)),
    }
    holds(
        rt,
        "a stop",
        stop_hosted(alloc, machines, number, 1, 1) == Err(nobody),
    );
    let reply = reply_at(machines, number, 1, Payload::new(alloc, 7));
    holds(rt, "a reply", reply.is_none());
    holds(rt, "a collect", collect_at(machines, number, 1).is_none());
    holds(rt, "a take-out", take_out_at(machines, number).is_none());
    holds(rt, "a removal", !remove_at(machines, number));
}

/// A second call is answered from outside, once. Its event waits.
fn answers_late(rt: &Host<impl Abort>, all: &mut Machines) {
    calls(rt, all, 3);
    for wanted in [true, false] {
        let content = Payload::new(all.alloc, 9);
        let taken = reply_at(&mut all.hosted, 1, 3, content);
        holds(rt, "it is taken once", taken == Some(wanted));
    }
    collects(rt, all, 3, 9);
}

/// The first machine is stopped, once, and then removed.
fn ends(rt: &Host<impl Abort>, all: &mut Machines) {
    let alloc = all.alloc;
    let word = stop_hosted(alloc, &mut all.hosted, 1, 3, 77);
    holds(rt, "the last word", word == Ok(77));
    let again = stop_hosted(alloc, &mut all.hosted, 1, 4, 78);
    holds(rt, "it stops once", again == Err(Refusal::Stopped(3)));
    holds(rt, "it was there", remove_at(&mut all.hosted, 1));
}

#[test]
fn the_calls_of_a_hosted_machine_reach_it_alone(rt: HostRuntime) {
    let rt = Host::with_memory(rt);
    let mut all = Machines::new(rt.alloc());
    starts(&rt, &mut all, 1);
    starts(&rt, &mut all, 2);
    calls(&rt, &mut all, 1);
    handles(&rt, &mut all);
    collects(&rt, &mut all, 1, 8);
    delivers(&rt, &mut all);
    expires(&rt, &mut all);
    answers_late(&rt, &mut all);
    is_nobody(&rt, &mut all, 3);
    shows(&rt, &all, 1, (5, 50, 1));
    ends(&rt, &mut all);
    is_nobody(&rt, &mut all, 1);
    shows(&rt, &all, 2, (6, 60, 0));
    rt.end_with_memory();
}
