//! What a worker does, with no thread but the test's own.
use super::counted::{Counted, token};
use super::host::{Host, holds, is_count, is_number, same};
use super::noted::Noted;
use super::silent::Silent;
use super::started::is_token;
use st_pool::{Gate, Hand, Machines, Worker, serve_one};
use st_runq::{Inlet, PutRefused, Seats};
use std::process::Abort;
use std::sync::Wait;

/// Workers over an empty shared run queue, numbered from 0 on.
pub fn workers(rt: &Host<impl Abort + AllocGlobal>, count: usize) -> (Inlet, Vec<Worker<u64>>) {
    let inlet = Inlet::new(rt.alloc()).expect(rt, "a shared queue");
    let all = Seats::for_workers(rt.alloc(), &inlet, count).expect(rt, "seats");
    (inlet, seated(rt, all))
}

/// A worker on each of these seats.
fn seated(rt: &Host<impl Abort + AllocGlobal>, all: Vec<Seats>) -> Vec<Worker<u64>> {
    let mut workers = Vec::new(rt.alloc());
    for seats in all {
        let number = workers.len();
        workers
            .push(Worker::new(number, seats))
            .expect(rt, "a place");
    }
    workers
}

/// A worker in whose hand no woken token is goes one round.
pub fn goes_round<M: Machines<Content = u64>, G: Gate>(
    rt: &Host<impl Abort>,
    wait: &impl Wait,
    worker: &mut Worker<u64>,
    machines: &M,
    gate: &G,
) -> bool {
    holds(
        rt,
        "nothing that was woken is left",
        worker.transit.woken.is_none(),
    );
    worker.round(wait, machines, gate)
}

/// A worker of machines that count their turns goes one round, by a gate that does nothing.
fn serves(
    rt: &Host<impl Abort>,
    wait: &impl Wait,
    worker: &mut Worker<u64>,
    machines: &Counted,
) -> bool {
    goes_round(rt, wait, worker, machines, &Silent)
}

#[test]
fn a_token_is_served_by_one_turn(rt: HostRuntime) {
    let rt = Host::with_memory(rt);
    let machines = Counted::new(rt.alloc(), 2, 2).expect(&rt, "machines");
    makes_two_turns(&rt, &machines);
    rt.end_with_memory();
}

/// The second of two machines makes its two turns; there is no third.
fn makes_two_turns(rt: &impl Abort, machines: &Counted) {
    let own = token(1);
    let back = serve_one(machines, own, 5, &mut Hand::new());
    is_token(rt, "it comes back for a turn", back, Some(own));
    turned(rt, "one turn is made", machines, 0, 1);
    let back = serve_one(machines, own, 5, &mut Hand::new());
    is_token(rt, "it rests after its last turn", back, None);
    turned(
        rt,
        "a second turn is made, and none by the other",
        machines,
        0,
        2,
    );
    let back = serve_one(machines, token(2), 5, &mut Hand::new());
    is_token(rt, "no machine, no turn", back, None);
}

/// A worker has no token, robs another one of its token, and serves it.
fn robs(
    rt: &Host<impl Abort>,
    wait: &impl Wait,
    own: &mut Worker<u64>,
    other: &mut Worker<u64>,
    machines: &Counted,
) {
    let round = serves(rt, wait, own, machines);
    holds(rt, "there is no token yet", !round);
    let put = other.lane.put_local(token(0));
    same(rt, "the other gets one", &put, &Ok(()));
    let round = serves(rt, wait, own, machines);
    holds(rt, "it is robbed and served", round);
    is_number(rt, "that was one turn", machines.turns_of(0), 1);
    let left = other.lane.take_local();
    is_token(rt, "the other has it no more", left, None);
}

/// The token came back to its robber, which serves it for the last time.
fn keeps_what_it_robbed(
    rt: &Host<impl Abort>,
    wait: &impl Wait,
    own: &mut Worker<u64>,
    other: &mut Worker<u64>,
    machines: &Counted,
) {
    holds(rt, "it came back to its robber", own.acquire(wait));
    is_token(rt, "and is in its hand", own.hand, Some(token(0)));
    let round = serves(rt, wait, other, machines);
    holds(rt, "nothing is left for the other", !round);
    let round = serves(rt, wait, own, machines);
    holds(rt, "what is in the hand is served", round);
    is_token(rt, "the hand is empty", own.hand, None);
    is_number(rt, "that was its last turn", machines.turns_of(0), 2);
    let round = serves(rt, wait, own, machines);
    holds(rt, "no token comes back", !round);
}

#[test]
fn a_round_serves_a_token_of_another_worker(rt: HostRuntime) {
    let wait = rt;
    let rt = Host::with_memory(rt);
    let machines = Counted::new(rt.alloc(), 1, 2).expect(&rt, "machines");
    let (_inlet, mut all) = workers(&rt, 2);
    let mut other = all.pop().expect(&rt, "a second worker");
    let mut own = all.pop().expect(&rt, "a first worker");
    is_count(&rt, "the first has the number 0", own.number, 0);
    robs(&rt, &wait, &mut own, &mut other, &machines);
    keeps_what_it_robbed(&rt, &wait, &mut own, &mut other, &machines);
    drop(own);
    drop(other);
    rt.end_with_memory();
}

#[test]
fn a_round_makes_one_turn_with_the_gates_moment_and_its_workers_number(rt: HostRuntime) {
    let wait = rt;
    let rt = Host::with_memory(rt);
    let noted = Noted::new();
    let (_inlet, mut all) = workers(&rt, 2);
    let mut worker = all.pop().expect(&rt, "a second worker");
    let put = worker.lane.put_local(token(0));
    same(&rt, "it gets a token", &put, &Ok(()));
    holds(
        &rt,
        "it serves it",
        goes_round(&rt, &wait, &mut worker, &noted, &noted),
    );
    same(
        &rt,
        "one turn, moment and worker",
        &noted.told(),
        &(1, 7, 1, 1),
    );
    drop(worker);
    rt.end_with_memory();
}

/// A worker makes so many rounds.
fn makes_rounds(
    rt: &Host<impl Abort>,
    wait: &impl Wait,
    worker: &mut Worker<u64>,
    machines: &Counted,
    count: u64,
) {
    for _ in 0..count {
        let round = serves(rt, wait, worker, machines);
        holds(rt, "each round serves a token", round);
    }
}

/// A worker with a token on its own queue and one on the shared queue serves its own sixty times, then the shared one, and
/// then its own again.
fn asks_the_shared_queue_first(
    rt: &Host<impl Abort>,
    wait: &impl Wait,
    inlet: &mut Inlet,
    worker: &mut Worker<u64>,
    machines: &Counted,
) {
    let put = worker.lane.put_local(token(0));
    same(rt, "one stands on its own queue", &put, &Ok(()));
    let put = inlet.put_shared(wait, token(1));
    same(rt, "one stands on the shared queue", &put, &Ok(()));
    makes_rounds(rt, wait, worker, machines, 60);
    turned(rt, "sixty rounds serve its own", machines, 60, 0);
    makes_rounds(rt, wait, worker, machines, 1);
    turned(rt, "the 61st serves the shared one", machines, 60, 1);
    makes_rounds(rt, wait, worker, machines, 1);
    turned(rt, "the next serves its own again", machines, 61, 1);
}

/// So many turns were made by the first machine and by the second.
fn turned(rt: &impl Abort, word: &str, machines: &Counted, first: u64, second: u64) {
    let turns = (machines.turns_of(0), machines.turns_of(1));
    same(rt, word, &turns, &(first, second));
}

#[test]
fn each_61st_round_asks_the_shared_queue_first(rt: HostRuntime) {
    let wait = rt;
    let rt = Host::with_memory(rt);
    let machines = Counted::endless(rt.alloc(), 2).expect(&rt, "machines");
    let (mut inlet, mut all) = workers(&rt, 1);
    let mut worker = all.pop().expect(&rt, "a worker");
    asks_the_shared_queue_first(&rt, &wait, &mut inlet, &mut worker, &machines);
    drop(worker);
    rt.end_with_memory();
}
