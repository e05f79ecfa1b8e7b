//! Tests of st_due: each call with memory at hand and where one allocation is refused, and long runs beside a plain list.
ghost use Rattle.std.specs.Prelude.{◌≤◌};

use super::host::{Host, got, holds, is_count, is_moment, is_number, same};
use st_due::{DueMachine, DueQueue, MachineId};
use std::process::Abort;

/// How many machines there are, but in the test with thousands.
const MACHINES: usize = 24;

/// The machine of a number, and the greatest id for the last. Three have one slot. Their order is that of the numbers.
fn machine(number: usize) -> MachineId {
    if number == MACHINES - 1 {
        return MachineId {
            slot: usize::MAX,
            serial: u64::MAX,
        };
    }
    MachineId {
        slot: number / 3,
        serial: (number % 3) as u64,
    }
}

/// A call, and what it is to answer, which stands last.
#[derive(Clone, Copy)]
enum Call {
    /// The machine of a number is due at a moment.
    Note(usize, u64),
    /// The machine of a number is not due any more.
    Forget(usize),
    /// The machine that is due first by a moment is taken out: its number, and the moment at which it was due.
    Take(u64, Option<(usize, u64)>),
    /// The earliest moment.
    First(Option<u64>),
    /// Memory is got for so many machines more.
    Reserve(usize),
}

/// The number and the moment of the machine that is due first, of a list of moments by number.
fn first_of(moments: &[Option<u64>]) -> Option<(usize, u64)> {
    let mut first = None;
    for (number, moment) in moments.iter().enumerate() {
        first = earlier_of(first, number, *moment);
    }
    first
}

/// The first so far, or the machine of this number where it is due earlier.
fn earlier_of(
    first: Option<(usize, u64)>,
    number: usize,
    moment: Option<u64>,
) -> Option<(usize, u64)> {
    let Some(moment) = moment else {
        return first;
    };
    match first {
        Some((_, earliest)) if earliest <= moment => first,
        _ => Some((number, moment)),
    }
}

/// Writes a moment into the list.
fn write(moments: &mut [Option<u64>], number: usize, moment: Option<u64>) {
    if let Some(place) = moments.get_mut(number) {
        *place = moment;
    }
}

/// Looks at all that can be read: that it is as the list says.
fn shows(rt: &impl Abort, queue: &DueQueue, moments: &[Option<u64>]) {
    for (number, moment) in moments.iter().enumerate() {
        let found = queue.moment_of(machine(number));
        is_moment(rt, "the moment of a machine", found, *moment);
    }
    let count = moments.iter().filter(|moment| moment.is_some()).count();
    is_count(rt, "how many there are", queue.len(), count);
    let earliest = first_of(moments).map(|first| first.1);
    is_moment(rt, "the earliest moment", queue.first(), earliest);
}

/// Reserves for so many. A call that finds no memory changes nothing that can be read, and is made again.
fn reserve_for(rt: &Host<impl Abort>, queue: &mut DueQueue, count: usize, moments: &[Option<u64>])
    ensures { count ≤ queue.new.reserved }
{
    if queue.reserve(count).is_err() {
        shows(rt, queue, moments);
        rt.retry();
        got(rt, "one allocation alone is refused", queue.reserve(count));
    }
}

/// A machine is due at a moment.
fn note(
    rt: &Host<impl Abort>,
    queue: &mut DueQueue,
    moments: &mut [Option<u64>],
    number: usize,
    moment: u64,
) {
    reserve_for(rt, queue, 1, moments);
    queue.note(machine(number), moment);
    write(moments, number, Some(moment));
}

/// A machine is not due any more.
fn forget(queue: &mut DueQueue, moments: &mut [Option<u64>], number: usize) {
    queue.forget(machine(number));
    write(moments, number, None);
}

/// Takes the machine out that is due first by a moment, and looks that it is that of the list. Answers its number, and
/// the moment at which it was due.
fn take(
    rt: &impl Abort,
    queue: &mut DueQueue,
    moments: &mut [Option<u64>],
    now: u64,
) -> Option<(usize, u64)> {
    let wanted = first_of(moments).filter(|first| first.1 <= now);
    let found = queue.take(now);
    same(rt, "what is taken out", &found, &wanted.map(due));
    let (number, moment) = wanted?;
    write(moments, number, None);
    Some((number, moment))
}

/// The machine of a number, due at a moment.
fn due(row: (usize, u64)) -> DueMachine {
    DueMachine {
        moment: row.1,
        machine: machine(row.0),
    }
}

/// Makes a call, and looks at its answer.
fn make(rt: &Host<impl Abort>, queue: &mut DueQueue, moments: &mut [Option<u64>], call: Call) {
    match call {
        Call::Note(number, moment) => note(rt, queue, moments, number, moment),
        Call::Forget(number) => forget(queue, moments, number),
        Call::Take(now, wanted) => {
            let taken = take(rt, queue, moments, now);
            same(rt, "what is taken out", &taken, &wanted);
        }
        Call::First(wanted) => is_moment(rt, "the earliest moment", queue.first(), wanted),
        Call::Reserve(count) => reserve_for(rt, queue, count, moments),
    }
}

/// Makes calls one after the other, and looks at their answers and, after each, at all that can be read.
fn make_all(rt: &Host<impl Abort + AllocGlobal>, calls: &[Call]) {
    let mut moments = [None; MACHINES];
    let mut queue = DueQueue::new(rt.alloc());
    for call in calls {
        make(rt, &mut queue, &mut moments, *call);
        shows(rt, &queue, &moments);
    }
}

#[test]
fn machines_are_taken_out_as_they_fall_due(rt: HostRuntime) {
    static CALLS: [Call; 15] = [
        Call::First(None),
        Call::Take(u64::MAX, None),
        Call::Note(5, 30),
        Call::Note(1, 20),
        Call::Note(9, 10),
        Call::First(Some(10)),
        Call::Take(9, None),
        Call::Take(10, Some((9, 10))),
        Call::Take(19, None),
        Call::Take(25, Some((1, 20))),
        Call::First(Some(30)),
        Call::Take(29, None),
        Call::Take(30, Some((5, 30))),
        Call::Take(u64::MAX, None),
        Call::First(None),
    ];
    let rt = Host::new(rt);
    make_all(&rt, &CALLS);
    rt.end();
}

#[test]
fn a_later_note_replaces_the_earlier_one(rt: HostRuntime) {
    static CALLS: [Call; 12] = [
        Call::Note(1, 20),
        Call::Note(2, 30),
        Call::Note(1, 40),
        Call::First(Some(30)),
        Call::Note(2, 50),
        Call::First(Some(40)),
        Call::Note(2, 10),
        Call::Note(2, 10),
        Call::Take(45, Some((2, 10))),
        Call::Take(45, Some((1, 40))),
        Call::Take(u64::MAX, None),
        Call::First(None),
    ];
    let rt = Host::new(rt);
    make_all(&rt, &CALLS);
    rt.end();
}

#[test]
fn a_machine_is_its_whole_id(rt: HostRuntime) {
    static CALLS: [Call; 10] = [
        Call::Note(0, 20),
        Call::Note(1, 10),
        Call::Note(2, 30),
        Call::Forget(1),
        Call::Forget(1),
        Call::First(Some(20)),
        Call::Note(1, 25),
        Call::Take(u64::MAX, Some((0, 20))),
        Call::Take(u64::MAX, Some((1, 25))),
        Call::Take(u64::MAX, Some((2, 30))),
    ];
    let rt = Host::new(rt);
    make_all(&rt, &CALLS);
    rt.end();
}

#[test]
fn of_one_moment_the_lower_id_comes_first(rt: HostRuntime) {
    static CALLS: [Call; 14] = [
        Call::Note(23, 7),
        Call::Note(8, 7),
        Call::Note(7, 7),
        Call::Note(2, 7),
        Call::Note(3, 7),
        Call::Note(0, 8),
        Call::Take(6, None),
        Call::Take(7, Some((2, 7))),
        Call::Take(7, Some((3, 7))),
        Call::Take(7, Some((7, 7))),
        Call::Take(7, Some((8, 7))),
        Call::Take(7, Some((23, 7))),
        Call::Take(7, None),
        Call::Take(8, Some((0, 8))),
    ];
    let rt = Host::new(rt);
    make_all(&rt, &CALLS);
    rt.end();
}

#[test]
fn the_first_and_the_last_moment(rt: HostRuntime) {
    static CALLS: [Call; 11] = [
        Call::Note(23, u64::MAX),
        Call::Note(4, u64::MAX),
        Call::Note(6, 0),
        Call::First(Some(0)),
        Call::Take(0, Some((6, 0))),
        Call::Take(u64::MAX - 1, None),
        Call::First(Some(u64::MAX)),
        Call::Take(u64::MAX, Some((4, u64::MAX))),
        Call::Take(u64::MAX, Some((23, u64::MAX))),
        Call::Take(u64::MAX, None),
        Call::Forget(23),
    ];
    let rt = Host::new(rt);
    make_all(&rt, &CALLS);
    rt.end();
}

#[test]
fn a_refused_reserve_changes_nothing(rt: HostRuntime) {
    static CALLS: [Call; 14] = [
        Call::Reserve(2),
        Call::Note(3, 30),
        Call::Note(4, 20),
        Call::Reserve(5),
        Call::Note(5, 50),
        Call::Note(6, 10),
        Call::Note(7, 70),
        Call::Take(15, Some((6, 10))),
        Call::Reserve(20),
        Call::Note(8, 5),
        Call::Reserve(200),
        Call::Take(25, Some((8, 5))),
        Call::Forget(4),
        Call::Take(35, Some((3, 30))),
    ];
    let rt = Host::new(rt);
    make_all(&rt, &CALLS);
    rt.end();
}

/// The number that comes after another. They have no order that can be seen.
fn next(seed: u64) -> u64 {
    seed.wrapping_mul(6_364_136_223_846_793_005)
        .wrapping_add(1_442_695_040_888_963_407)
}

/// Makes a call that goes by a seed: a note for six in ten, a take for three, and a forget for one. So many moments are
/// there to choose from.
fn make_by(
    rt: &Host<impl Abort>,
    queue: &mut DueQueue,
    moments: &mut [Option<u64>],
    seed: u64,
    width: u64,
) {
    let number = (seed >> 20) as usize % MACHINES;
    let moment = (seed >> 40) % width.max(1);
    match (seed >> 33) % 10 {
        0 => forget(queue, moments, number),
        1 | 2 | 3 => {
            take(rt, queue, moments, moment);
        }
        _ => note(rt, queue, moments, number, moment),
    }
}

/// Makes many calls that go by a seed, and looks after each at all that can be read.
fn make_many(rt: &Host<impl Abort + AllocGlobal>, seed: u64, width: u64) {
    let mut moments = [None; MACHINES];
    let mut queue = DueQueue::new(rt.alloc());
    let mut seed = seed;
    for _ in 0..2_000 {
        seed = next(seed);
        make_by(rt, &mut queue, &mut moments, seed, width);
        shows(rt, &queue, &moments);
    }
}

#[test]
fn many_calls_answer_as_a_plain_list(rt: HostRuntime) {
    let rt = Host::new(rt);
    for width in [1, 5, 40, 1_000_000] {
        make_many(&rt, width, width);
    }
    rt.end();
}

/// Machines of so many slots are due, each at a moment that goes by its slot.
fn note_thousands(rt: &Host<impl Abort>, queue: &mut DueQueue, count: usize) {
    for slot in 0..count {
        if queue.reserve(1).is_err() {
            is_count(rt, "how many there are", queue.len(), slot);
            rt.retry();
            got(rt, "one allocation alone is refused", queue.reserve(1));
        }
        queue.note(MachineId { slot, serial: 1 }, next(slot as u64) >> 50);
    }
}

/// Takes so many machines out: each has the moment that goes by its slot, and is not due before the last.
fn take_thousands(rt: &Host<impl Abort>, queue: &mut DueQueue, count: usize) {
    let mut last = (0, 0);
    for _ in 0..count {
        let taken = queue.take(u64::MAX).expect(rt, "one is left");
        let own = next(taken.machine.slot as u64) >> 50;
        is_number(rt, "its own moment", taken.moment, own);
        let row = (taken.moment, taken.machine.slot);
        holds(rt, "in order", last <= row);
        last = row;
    }
    holds(rt, "none is left", queue.len() == 0);
}

#[test]
fn thousands_are_taken_out_in_order(rt: HostRuntime) {
    let rt = Host::new(rt);
    let mut queue = DueQueue::new(rt.alloc());
    note_thousands(&rt, &mut queue, 5_000);
    take_thousands(&rt, &mut queue, 5_000);
    note_thousands(&rt, &mut queue, 300);
    take_thousands(&rt, &mut queue, 300);
    rt.end();
}
