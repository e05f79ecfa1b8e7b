//! Tests of st_runq: each call once with memory at hand, tokens that cross threads, and all calls where one allocation
//! is refused.

use super::host::{Host, got, holds, same};
use st_events::MachineId;
use st_runq::{Inlet, Lane, PutRefused, Seats, Shared, Thief, Token};
use std::process::Abort;
use std::sync::Wait;
use std::thread;

/// A token of the machine in a slot.
fn token(slot: usize) -> Token {
    Token {
        machine: MachineId { slot, serial: 1 },
        wake: 7,
    }
}

/// An empty lane. Where memory was refused, it is made again.
fn new_lane(rt: &Host<impl Abort + AllocGlobal>) -> Lane {
    if let Ok(lane) = Lane::new(rt.alloc()) {
        return lane;
    }
    rt.retry();
    got(rt, "one allocation alone is refused", Lane::new(rt.alloc()))
}

/// An inlet of an empty queue. Where memory was refused, it is made again.
fn new_inlet(rt: &Host<impl Abort + AllocGlobal>) -> Inlet {
    if let Ok(inlet) = Inlet::new(rt.alloc()) {
        return inlet;
    }
    rt.retry();
    let inlet = Inlet::new(rt.alloc());
    got(rt, "one allocation alone is refused", inlet)
}

/// What so many workers have. Where memory was refused, it is made again.
fn seats_for(rt: &Host<impl Abort + AllocGlobal>, inlet: &Inlet, count: usize) -> Vec<Seats> {
    if let Ok(all) = Seats::for_workers(rt.alloc(), inlet, count) {
        return all;
    }
    rt.retry();
    let all = Seats::for_workers(rt.alloc(), inlet, count);
    got(rt, "one allocation alone is refused", all)
}

/// A thief of a lane. It takes no memory.
fn thief_of(rt: &Host<impl Abort>, lane: &Lane) -> Thief {
    lane.thief().expect(rt, "a thief takes no memory")
}

/// A taker of a shared queue. It takes no memory.
fn taker_of(rt: &Host<impl Abort>, inlet: &Inlet) -> Shared {
    inlet.taker().expect(rt, "a taker takes no memory")
}

/// Puts the tokens of the slots from one up to another. One that finds no memory comes back, and is put again.
///
/// A queue can be read only by taking from it. So whoever takes all tokens later sees whether a refused put left one.
fn put_local(rt: &Host<impl Abort>, lane: &mut Lane, first: usize, end: usize) {
    for slot in first..end {
        if let Err(refused) = lane.put_local(token(slot)) {
            holds(rt, "it comes back", refused == PutRefused(token(slot)));
            rt.retry();
            let again = lane.put_local(refused.0);
            got(rt, "one allocation alone is refused", again);
        }
    }
}

/// The same on the shared queue.
fn put_shared(
    rt: &Host<impl Abort>,
    wait: &impl Wait,
    inlet: &mut Inlet,
    first: usize,
    end: usize,
) {
    for slot in first..end {
        if let Err(refused) = inlet.put_shared(wait, token(slot)) {
            holds(rt, "it comes back", refused == PutRefused(token(slot)));
            rt.retry();
            let again = inlet.put_shared(wait, refused.0);
            got(rt, "one allocation alone is refused", again);
        }
    }
}

/// What is taken is the token of this slot.
fn is_token(rt: &impl Abort, found: Option<Token>, slot: usize) {
    same(rt, "the token that is taken", &found, &Some(token(slot)));
}

/// Nothing is left to take.
fn is_none(rt: &impl Abort, found: Option<Token>) {
    same(rt, "no token is left", &found, &None);
}

/// The owner takes the tokens of the slots from one up to another, in order.
fn take_local(rt: &impl Abort, lane: &mut Lane, first: usize, end: usize) {
    for slot in first..end {
        is_token(rt, lane.take_local(), slot);
    }
}

/// A thief takes them, in order.
fn steal(rt: &impl Abort, thief: &mut Thief, first: usize, end: usize) {
    for slot in first..end {
        is_token(rt, thief.steal(), slot);
    }
}

/// A taker of the shared queue takes them, in order.
fn take_shared(rt: &impl Abort, wait: &impl Wait, shared: &mut Shared, first: usize, end: usize) {
    for slot in first..end {
        is_token(rt, shared.take_shared(wait), slot);
    }
}

/// Another thread took the tokens of the first two slots, in order, and found no third.
fn two_are_taken(rt: &impl Abort, found: [Option<Token>; 3]) {
    let wanted = [Some(token(1)), Some(token(2)), None];
    same(rt, "what another thread takes", &found, &wanted);
}

#[test]
fn an_owner_takes_what_it_put(rt: HostRuntime) {
    let rt = Host::new(rt);
    let mut lane = new_lane(&rt);
    is_none(&rt, lane.take_local());
    put_local(&rt, &mut lane, 1, 3);
    take_local(&rt, &mut lane, 1, 3);
    is_none(&rt, lane.take_local());
    drop(lane);
    rt.end();
}

#[test]
fn another_thread_steals_in_order(rt: HostRuntime) {
    let threads = rt;
    let rt = Host::new(rt);
    let mut lane = new_lane(&rt);
    let mut thief = thief_of(&rt, &lane);
    put_local(&rt, &mut lane, 1, 3);
    let steals = move || [thief.steal(), thief.steal(), thief.steal()];
    let child = match thread::spawn(&threads, steals) {
        Ok(child) => child,
        Err(refused) => {
            rt.retry();
            let again = thread::spawn(&threads, refused.value);
            got(&rt, "one allocation alone is refused", again)
        }
    };
    two_are_taken(&rt, child.join(&threads));
    is_none(&rt, lane.take_local());
    drop(lane);
    rt.end();
}

#[test]
fn another_thread_takes_from_the_shared_queue_in_order(rt: HostRuntime) {
    let threads = rt;
    let rt = Host::new(rt);
    let mut inlet = new_inlet(&rt);
    let mut shared = taker_of(&rt, &inlet);
    put_shared(&rt, &threads, &mut inlet, 1, 3);
    let takes = move || {
        [
            shared.take_shared(&threads),
            shared.take_shared(&threads),
            shared.take_shared(&threads),
        ]
    };
    let child = match thread::spawn(&threads, takes) {
        Ok(child) => child,
        Err(refused) => {
            rt.retry();
            let again = thread::spawn(&threads, refused.value);
            got(&rt, "one allocation alone is refused", again)
        }
    };
    two_are_taken(&rt, child.join(&threads));
    drop(inlet);
    rt.end();
}

/// The second of three workers, each of which has the token of its number, takes all four tokens that there are.
fn takes_all(rt: &impl Abort, wait: &impl Wait, second: &mut Seats) {
    holds(rt, "two thieves", second.thieves.len() == 2);
    is_token(rt, second.thieves[0].steal(), 2);
    is_token(rt, second.thieves[1].steal(), 0);
    is_none(rt, second.thieves[0].steal());
    is_token(rt, second.lane.take_local(), 1);
    is_token(rt, second.shared.take_shared(wait), 3);
}

#[test]
fn each_worker_robs_those_after_it_first(rt: HostRuntime) {
    let wait = rt;
    let rt = Host::new(rt);
    let mut inlet = new_inlet(&rt);
    let mut all = seats_for(&rt, &inlet, 3);
    holds(&rt, "three workers", all.len() == 3);
    for (own, seats) in all.iter_mut().enumerate() {
        put_local(&rt, &mut seats.lane, own, own + 1);
    }
    put_shared(&rt, &wait, &mut inlet, 3, 4);
    takes_all(&rt, &wait, &mut all[1]);
    is_none(&rt, all[0].shared.take_shared(&wait));
    drop(all);
    drop(inlet);
    rt.end();
}

/// The owner and a thief take what the owner puts, in order.
fn two_take_local(rt: &Host<impl Abort>, lane: &mut Lane, thief: &mut Thief) {
    put_local(rt, lane, 0, 200);
    take_local(rt, lane, 0, 100);
    steal(rt, thief, 100, 200);
    is_none(rt, lane.take_local());
}

/// Two workers take what is put on the lane of the first and on the shared queue, in order.
fn two_take(
    rt: &Host<impl Abort>,
    wait: &impl Wait,
    inlet: &mut Inlet,
    first: &mut Seats,
    second: &mut Seats,
) {
    holds(rt, "one thief", second.thieves.len() == 1);
    two_take_local(rt, &mut first.lane, &mut second.thieves[0]);
    put_shared(rt, wait, inlet, 0, 200);
    take_shared(rt, wait, &mut first.shared, 0, 100);
    take_shared(rt, wait, &mut second.shared, 100, 200);
    is_none(rt, second.shared.take_shared(wait));
}

#[test]
fn a_refused_put_leaves_nothing(rt: HostRuntime) {
    let wait = rt;
    let rt = Host::new(rt);
    let mut inlet = new_inlet(&rt);
    let mut all = seats_for(&rt, &inlet, 2);
    let [first, second] = all.as_mut_slice() else {
        panic!(&rt; "there are two workers")
    };
    two_take(&rt, &wait, &mut inlet, first, second);
    drop(all);
    drop(inlet);
    rt.end();
}
