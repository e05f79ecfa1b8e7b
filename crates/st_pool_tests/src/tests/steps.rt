//! The steps of a worker's round, each made by itself.
use super::counted::{Counted, token};
use super::host::{Host, got, holds, is_number, same};
use super::silent::Silent;
use super::started::is_token;
use super::workers::workers;
use st_pool::{Message, Worker};
use st_worker::{Served, Source};
use std::alloc::Global;
use std::process::Abort;
use std::sync::Wait;

/// A message of the first machine to the second.
fn message() -> Message<u64> {
    Message {
        sender: token(0).machine,
        number: 1,
        target: token(1).machine,
        content: 5,
    }
}

/// A worker takes a token of its own run queue, and has it then.
fn picks_up(rt: &Host<impl Abort>, wait: &impl Wait, worker: &mut Worker<u64>) {
    let put = worker.lane.put_local(token(0));
    same(rt, "it gets a token", &put, &Ok(()));
    let own = worker.pick_up(wait) == Some(Source::Own);
    holds(rt, "it is from its own run queue", own);
    let had = worker.pick_up(wait) == Some(Source::Hand);
    holds(rt, "it has it already", had);
    is_token(rt, "it is in its hand", worker.hand, Some(token(0)));
}

/// The token is served by one turn, and stands on the run queue again.
fn serves_next(
    rt: &Host<impl Abort>,
    wait: &impl Wait,
    worker: &mut Worker<u64>,
    machines: &Counted,
) {
    let none = worker.transit.woken.is_none();
    holds(rt, "nothing that was woken is left", none);
    let again = worker.serve_next(wait, machines, &Silent) == Some(Served::Requeued);
    holds(rt, "it is to be served again", again);
    is_number(rt, "that was one turn", machines.turns_of(0), 1);
    is_token(rt, "it has none", worker.hand, None);
}

/// The token that it takes is put back.
fn puts_back(rt: &Host<impl Abort>, wait: &impl Wait, worker: &mut Worker<u64>) {
    holds(rt, "there is none to put", !worker.put_back());
    holds(rt, "it takes it", worker.acquire(wait));
    holds(rt, "it puts it back", worker.put_back());
    is_token(rt, "it has it no more", worker.hand, None);
    let taken = worker.lane.take_local();
    is_token(rt, "it stands on the queue", taken, Some(token(0)));
}

/// The token that a delivery woke is put on the run queue.
fn gives_woken(rt: &Host<impl Abort>, worker: &mut Worker<u64>) {
    holds(rt, "none was woken", !worker.give_woken());
    worker.transit.woken = Some(token(2));
    holds(rt, "it is given", worker.give_woken());
    is_token(rt, "it is carried no more", worker.transit.woken, None);
    let taken = worker.lane.take_local();
    is_token(rt, "it stands on the queue", taken, Some(token(2)));
}

/// What it carries is handed over.
fn hands_over(rt: &Host<impl Abort>, alloc: Global, worker: &mut Worker<u64>) {
    let mut left = Vec::new(alloc);
    let mut carried = Vec::new(alloc);
    got(rt, "room for a token", left.reserve(1));
    got(rt, "room for a message", carried.reserve(1));
    worker.hand = Some(token(0));
    worker.transit.message = Some(message());
    worker.transit.woken = Some(token(2));
    let tokens = worker.hand_over(&mut left, &mut carried);
    same(rt, "how many tokens", &tokens, &2);
    let woken = left.as_slice() == [token(2)].as_slice();
    holds(rt, "what was woken", woken);
    let message = carried.as_slice() == [(token(0), message())].as_slice();
    holds(rt, "what was carried", message);
    is_token(rt, "it has none", worker.hand, None);
    let none = worker.transit.message.is_none() && worker.transit.woken.is_none();
    holds(rt, "it carries nothing", none);
}

#[test]
fn each_step_of_a_round(rt: HostRuntime) {
    let wait = rt;
    let rt = Host::with_memory(rt);
    let machines = Counted::new(rt.alloc(), 1, 2).expect(&rt, "machines");
    let (_inlet, mut all) = workers(&rt, 1);
    let mut worker = all.pop().expect(&rt, "a worker");
    picks_up(&rt, &wait, &mut worker);
    serves_next(&rt, &wait, &mut worker, &machines);
    puts_back(&rt, &wait, &mut worker);
    gives_woken(&rt, &mut worker);
    hands_over(&rt, rt.alloc(), &mut worker);
    rt.end_with_memory();
}
