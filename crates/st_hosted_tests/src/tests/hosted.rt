//! A machine whose host is the test.
use super::did::{Did, shown};
use super::host::{Host, got, holds, is_number, same};
use st_core::{Core, Entry, Start, Turned};
use st_events::{Kind, MachineId, Refusal};
use st_hosted::{Begin, HostAnswer, NotTurned, Payload, WhyNot, turn_by};
use std::alloc::Global;
use std::process::Abort;

/// The machine's id.
pub const ID: MachineId = MachineId { slot: 3, serial: 7 };

/// A machine whose host is the test. A call that finds no memory is made again.
#[derive(Drop)]
pub struct Hosted {
    pub core: Box<Core<HostAnswer>>,
}

/// A start. Where there is no memory for it, it is made again.
fn started(
    rt: &Host<impl Abort>,
    alloc: Global,
    answers: HostAnswer,
    begin: &Begin,
) -> Start<HostAnswer> {
    match Core::start(alloc, answers, ID, begin, 0) {
        Ok(start) => start,
        Err(refused) => {
            rt.retry();
            let start = Core::start(alloc, refused.value, ID, begin, 0);
            got(rt, "one allocation alone is refused", start)
        }
    }
}

/// A machine in a box. Where there is no memory for it, it is made again.
fn boxed(rt: &Host<impl Abort>, alloc: Global, core: Core<HostAnswer>) -> Box<Core<HostAnswer>> {
    match Box::new(alloc, core) {
        Ok(core) => core,
        Err(failed) => {
            rt.retry();
            let core = Box::new(alloc, failed.value);
            got(rt, "one allocation alone is refused", core)
        }
    }
}

/// A machine that has started, and what its start did.
fn running(rt: &Host<impl Abort>, start: Start<HostAnswer>) -> (Core<HostAnswer>, Did) {
    match start {
        Start::Running(core, report) => (core, shown(&report)),
        Start::Ignored => panic!(rt; "the start is ignored"),
        Start::Stopped(_) => panic!(rt; "the start stops"),
    }
}

/// What a turn did.
fn reported(rt: &Host<impl Abort>, turned: Turned<u64>) -> Did {
    match turned {
        Turned::Reported(report) => shown(&report),
        Turned::Idle => panic!(rt; "there is an event"),
    }
}

/// Whether memory was wanting.
fn is_for_memory(why: WhyNot) -> bool {
    matches!(why, WhyNot::Refused(Refusal::NoMemory))
}

impl Hosted {
    /// A machine that starts so at the moment 0, and whose start does this.
    pub fn begun(
        rt: &Host<impl Abort>,
        alloc: Global,
        answers: HostAnswer,
        begin: &Begin,
        wanted: &Did,
    ) -> Hosted {
        let (core, did) = running(rt, started(rt, alloc, answers, begin));
        same(rt, "a start", &did, wanted);
        Hosted {
            core: boxed(rt, alloc, core),
        }
    }

    /// Posts an event with this code, which gets this number.
    pub fn post(
        &mut self,
        rt: &Host<impl Abort>,
        alloc: Global,
        entry: Entry,
        code: u64,
        wanted: u64,
    ) {
        let number = match self.core.post(entry, Payload::new(alloc, code)) {
            Ok(number) => number,
            Err(refused) => {
                rt.retry();
                let number = self.core.post(entry, refused.value);
                got(rt, "one allocation alone is refused", number)
            }
        };
        is_number(rt, "an event's number", number, wanted);
    }

    /// Sees that the event of this number, kind and code comes next.
    pub fn shows(&self, rt: &Host<impl Abort>, number: u64, kind: Kind, code: u64) {
        let next = match self.core.next() {
            Some((next, of_kind, content)) => Some((next, of_kind, content.code)),
            None => None,
        };
        holds(rt, "the next event", next == Some((number, kind, code)));
    }

    /// Makes the turn again that was refused for memory, with the same answers.
    fn turn_again(
        &mut self,
        rt: &Host<impl Abort>,
        number: u64,
        not_turned: NotTurned<HostAnswer>,
        now: u64,
    ) -> Turned<u64> {
        holds(rt, "memory is wanted", is_for_memory(not_turned.why));
        rt.retry();
        let turned = turn_by(&mut self.core, number, not_turned.answers, now);
        got(rt, "one allocation alone is refused", turned)
    }

    /// Makes the turn of an event with these answers, which does this.
    pub fn turn(
        &mut self,
        rt: &Host<impl Abort>,
        number: u64,
        answers: HostAnswer,
        now: u64,
        wanted: &Did,
    ) {
        let turned = match turn_by(&mut self.core, number, answers, now) {
            Ok(turned) => turned,
            Err(not_turned) => self.turn_again(rt, number, not_turned, now),
        };
        same(rt, "a turn", &reported(rt, turned), wanted);
    }

    /// Sees that no turn is made with these answers, and why.
    pub fn refuses(
        &mut self,
        rt: &Host<impl Abort>,
        number: u64,
        answers: HostAnswer,
        now: u64,
        wanted: WhyNot,
    ) {
        match turn_by(&mut self.core, number, answers, now) {
            Ok(_) => panic!(rt; "a turn was made"),
            Err(not_turned) => same(rt, "why not", &not_turned.why, &wanted),
        }
    }

    /// Lets time pass to a moment at which so many time-outs expire.
    pub fn tick(&mut self, rt: &Host<impl Abort>, now: u64, wanted: u64) {
        let expired = match self.core.tick_to(now) {
            Ok(expired) => expired,
            Err(_) => {
                rt.retry();
                let expired = self.core.tick_to(now);
                got(rt, "one allocation alone is refused", expired)
            }
        };
        is_number(rt, "how many expired", expired, wanted);
    }

    /// Looks at the data.
    pub fn data(&self, rt: &Host<impl Abort>, wanted: u64) {
        is_number(rt, "the data", *self.core.data(), wanted);
    }
}
