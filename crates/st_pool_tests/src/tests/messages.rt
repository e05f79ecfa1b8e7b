//! What workers do with the messages that they carry, and with the tokens that deliveries wake.
ghost use Rattle.std.specs.Prelude.{◌≤◌};

use super::counted::token;
use super::eager::Eager;
use super::flood::Flood;
use super::host::{Host, holds, is_count, is_number, same};
use super::mail::Mail;
use super::meeting::Meeting;
use super::memory::waits_until_woken;
use super::ring::Ring;
use super::silent::Silent;
use super::slow::Slow;
use super::started::{closes, closes_again, is_token, schedules, started, times};
use super::workers::{goes_round, workers};
use st_pool::{Gate, Hand, Pool, PoolEnd, Runtime, Worker, serve_one};
use std::process::Abort;
use std::sync::{Arc, Wait};
use std::thread;

/// So many senders send so many messages each to so many targets, by so many workers, and so many rounds anew. Each message
/// is refused so many times.
#[derive(Clone, Copy)]
struct Sending {
    workers: usize,
    senders: usize,
    targets: usize,
    each: u64,
    refusals: u64,
    rounds: u32,
}

/// All messages arrive, in order, and whoever drains the pool misses none.
fn all_arrive<R: Runtime, G: Gate + Drop + Send + Sync + 'static>(
    rt: &Host<impl Abort + AllocGlobal>,
    threads: R,
    gate: &Arc<G>,
    sending: Sending,
)
    requires { (1 ≤ sending.workers) × (sending.workers ≤ 16) }
{
    let mail = mail_of(rt, sending);
    let mut pool = started(rt, threads, sending.workers, &mail, gate);
    all_are_sent(rt, &mut pool, &mail, sending);
}

/// The machines that send so.
fn mail_of(rt: &Host<impl Abort + AllocGlobal>, sending: Sending) -> Arc<Mail> {
    let Sending {
        workers: _,
        senders,
        targets,
        each,
        refusals,
        rounds: _,
    } = sending;
    Mail::new(rt.alloc(), senders, targets, each, refusals).expect(rt, "machines")
}

/// All messages are sent, so many rounds, and then the pool is closed.
fn all_are_sent<R: Runtime>(
    rt: &Host<impl Abort>,
    pool: &mut Pool<R, u64>,
    mail: &Mail,
    sending: Sending,
) {
    let all = (sending.senders as u64).saturating_mul(sending.each);
    for _ in 0..sending.rounds {
        one_round_is_sent(rt, pool, mail, sending.senders, all);
    }
    all_have_arrived(rt, mail, &closes(rt, pool));
}

/// All messages of one round are sent: once drained, so many were handled.
fn one_round_is_sent<R: Runtime>(
    rt: &Host<impl Abort>,
    pool: &Pool<R, u64>,
    mail: &Mail,
    senders: usize,
    all: u64,
) {
    mail.begin_anew();
    schedules(rt, pool, 0, senders);
    pool.drain();
    is_number(rt, "all were handled once drained", mail.handled(), all);
}

/// Looks that no message came out of turn, and that none is left.
fn all_have_arrived(rt: &impl Abort, mail: &Mail, end: &PoolEnd<u64>) {
    is_number(rt, "none came out of turn", mail.faults(), 0);
    holds(rt, "no token is left", end.left.is_empty());
    holds(rt, "no message is carried", end.carried.is_empty());
}

#[test]
fn messages_arrive_once_and_in_order(rt: HostRuntime) {
    let threads = rt;
    let rt = Host::with_memory(rt);
    let gate = Silent::new(rt.alloc()).expect(&rt, "a gate");
    let sending = Sending {
        workers: 4,
        senders: 100,
        targets: 1,
        each: 10,
        refusals: 0,
        rounds: 20,
    };
    all_arrive(&rt, threads, &gate, sending);
    let sending = Sending {
        workers: 1,
        senders: 100,
        targets: 100,
        each: 10,
        refusals: 0,
        rounds: 1,
    };
    all_arrive(&rt, threads, &gate, sending);
    let sending = Sending {
        workers: 3,
        senders: 50,
        targets: 7,
        each: 20,
        refusals: 0,
        rounds: 20,
    };
    all_arrive(&rt, threads, &gate, sending);
    rt.end_with_memory();
}

#[test]
fn a_message_refused_at_first_arrives_all_the_same(rt: HostRuntime) {
    let threads = rt;
    let rt = Host::with_memory(rt);
    let gate = Silent::new(rt.alloc()).expect(&rt, "a gate");
    let sending = Sending {
        workers: 4,
        senders: 20,
        targets: 3,
        each: 10,
        refusals: 3,
        rounds: 20,
    };
    all_arrive(&rt, threads, &gate, sending);
    let sending = Sending {
        workers: 1,
        senders: 20,
        targets: 3,
        each: 10,
        refusals: 1,
        rounds: 1,
    };
    all_arrive(&rt, threads, &gate, sending);
    rt.end_with_memory();
}

#[test]
fn whoever_drains_waits_for_what_was_woken(rt: HostRuntime) {
    let threads = rt;
    let rt = Host::with_memory(rt);
    let gate = Slow::new(rt.alloc()).expect(&rt, "a gate");
    let sending = Sending {
        workers: 2,
        senders: 1,
        targets: 1,
        each: 1,
        refusals: 0,
        rounds: 500,
    };
    all_arrive(&rt, threads, &gate, sending);
    rt.end_with_memory();
}

#[test]
fn what_was_woken_is_left_to_the_others(rt: HostRuntime) {
    let threads = rt;
    let rt = Host::with_memory(rt);
    let machines = Eager::new(rt.alloc()).expect(&rt, "machines");
    let gate = Meeting::new(rt.alloc(), 2).expect(&rt, "a gate");
    let mut pool = started(&rt, threads, 2, &machines, &gate);
    none_waits_in_vain(&rt, &mut pool, &gate);
    rt.end_with_memory();
}

/// Of two workers one serves what was woken while the other serves who woke it, two hundred times.
fn none_waits_in_vain<R: Runtime>(rt: &Host<impl Abort>, pool: &mut Pool<R, u64>, gate: &Meeting) {
    // Both workers are to sleep first.
    for _ in 0..200_000 {
        thread::yield_now();
    }
    for _ in 0..200 {
        meets_once(rt, pool, gate);
    }
    is_number(rt, "none waits in vain", gate.gave_up(), 0);
    is_number(rt, "each made its turns", closes(rt, pool).turns, 800);
}

/// The first machine is scheduled, and all rest once drained.
fn meets_once<R: Runtime>(rt: &Host<impl Abort>, pool: &Pool<R, u64>, gate: &Meeting) {
    gate.begin_anew();
    schedules(rt, pool, 0, 1);
    pool.drain();
}

#[test]
fn what_was_woken_is_served_before_more_is(rt: HostRuntime) {
    let threads = rt;
    let rt = Host::with_memory(rt);
    let machines = Flood::new(rt.alloc(), 200).expect(&rt, "machines");
    let gate = Silent::new(rt.alloc()).expect(&rt, "a gate");
    let mut pool = started(&rt, threads, 1, &machines, &gate);
    serves_the_first_at_once(&rt, &mut pool, &machines);
    rt.end_with_memory();
}

/// The machine that was woken first is served before two hundred are.
fn serves_the_first_at_once<R: Runtime>(
    rt: &Host<impl Abort>,
    pool: &mut Pool<R, u64>,
    machines: &Flood,
) {
    schedules(rt, pool, 0, 1);
    waits_until_woken(machines, 200);
    is_count(rt, "all are left", closes(rt, pool).left.len(), 201);
    let first = machines.served_at();
    is_number(rt, "the first had its turn at once", first, 1);
}

/// A ring goes round so many times, so many turns each time. Whoever drains the pool finds it at its end.
fn goes_to_its_end<R: Runtime>(
    rt: &Host<impl Abort + AllocGlobal>,
    threads: R,
    workers: usize,
    turns: u64,
    rounds: u32,
)
    requires { (1 ≤ workers) × (workers ≤ 16) }
{
    let ring = Ring::new(rt.alloc(), 10).expect(rt, "machines");
    let gate = Silent::new(rt.alloc()).expect(rt, "a gate");
    let mut pool = started(rt, threads, workers, &ring, &gate);
    for _ in 0..rounds {
        goes_once(rt, &pool, &ring, turns);
    }
    let all = turns.saturating_mul(u64::from(rounds));
    ends_at(rt, &closes(rt, &mut pool), all);
}

/// A ring goes round once.
fn goes_once<R: Runtime>(rt: &Host<impl Abort>, pool: &Pool<R, u64>, ring: &Ring, turns: u64) {
    ring.begin_anew(turns);
    schedules(rt, pool, 0, 1);
    pool.drain();
    is_number(rt, "no turn is left once drained", ring.left(), 0);
}

/// Looks that so many turns were made, and that no token is left.
fn ends_at(rt: &impl Abort, end: &PoolEnd<u64>, turns: u64) {
    is_number(rt, "so many turns were made", end.turns, turns);
    holds(rt, "no token is left", end.left.is_empty());
}

#[test]
fn a_ring_goes_to_its_end(rt: HostRuntime) {
    let threads = rt;
    let rt = Host::with_memory(rt);
    goes_to_its_end(&rt, threads, 1, 10_000, 1);
    goes_to_its_end(&rt, threads, 1, 20, 1_000);
    goes_to_its_end(&rt, threads, 2, 20, 1_000);
    goes_to_its_end(&rt, threads, 16, 20, 100);
    rt.end_with_memory();
}

/// Waits until so many workers carry a message, or gives up.
fn waits_until_carried(mail: &Mail, count: u64) {
    for _ in 0..10_000_000 {
        if mail.carried() == count {
            return;
        }
        thread::yield_now();
    }
}

/// Each message that is carried stands there with its sender's token, which is not left.
fn are_carried(rt: &Host<impl Abort>, end: &PoolEnd<u64>) {
    for (own, message) in &end.carried {
        same(rt, "with its sender's token", &message.sender, &own.machine);
        is_count(rt, "which is not left", times(end.left.as_slice(), *own), 0);
    }
}

/// Of ten senders with five messages each three are carried: no other message has left, and no other token.
fn three_are_carried(rt: &Host<impl Abort>, mail: &Mail, end: &PoolEnd<u64>) {
    is_count(rt, "each worker carries one", end.carried.len(), 3);
    are_carried(rt, end);
    is_count(rt, "the other tokens are left", end.left.len(), 7);
    is_number(rt, "the others wait", mail.waiting(), 47);
    is_number(rt, "none was delivered", mail.delivered(), 0);
    is_number(rt, "none came out of turn", mail.faults(), 0);
}

#[test]
fn a_close_hands_out_what_is_carried(rt: HostRuntime) {
    let threads = rt;
    let rt = Host::with_memory(rt);
    let mail = Mail::new(rt.alloc(), 10, 1, 5, u64::MAX).expect(&rt, "machines");
    let gate = Silent::new(rt.alloc()).expect(&rt, "a gate");
    let mut pool = started(&rt, threads, 3, &mail, &gate);
    schedules(&rt, &pool, 0, 10);
    waits_until_carried(&mail, 3);
    hands_out_three(&rt, &mut pool, &mail);
    rt.end_with_memory();
}

/// A pool of three workers is closed, each of which carries a message, and drained, and closed again.
fn hands_out_three<R: Runtime>(rt: &Host<impl Abort>, pool: &mut Pool<R, u64>, mail: &Mail) {
    let end = closes(rt, pool);
    pool.drain();
    three_are_carried(rt, mail, &end);
    closes_again(rt, pool, end.turns);
}

/// A pool is closed while a hundred senders send 2,000 messages. No message is lost.
fn closes_in_the_midst<R: Runtime>(
    rt: &Host<impl Abort + AllocGlobal>,
    threads: R,
    gate: &Arc<Silent>,
) {
    let mail = Mail::new(rt.alloc(), 100, 60, 20, 1).expect(rt, "machines");
    let mut pool = started(rt, threads, 4, &mail, gate);
    schedules(rt, &pool, 0, 100);
    let end = closes(rt, &mut pool);
    are_all_there(rt, &mail, &end, 2_000);
}

/// Each message is delivered, carried, or waits with its sender.
fn are_all_there(rt: &Host<impl Abort>, mail: &Mail, end: &PoolEnd<u64>, all: u64) {
    is_number(
        rt,
        "none is lost, and none comes twice",
        mail.delivered()
            .saturating_add(end.carried.len() as u64)
            .saturating_add(mail.waiting()),
        all,
    );
    is_number(rt, "none came out of turn", mail.faults(), 0);
    are_carried(rt, end);
}

#[test]
fn a_close_in_the_midst_loses_no_message(rt: HostRuntime) {
    let threads = rt;
    let rt = Host::with_memory(rt);
    let gate = Silent::new(rt.alloc()).expect(&rt, "a gate");
    for _ in 0..100 {
        closes_in_the_midst(&rt, threads, &gate);
    }
    rt.end_with_memory();
}

/// A worker with a message or a token goes one round.
fn goes_on(
    rt: &Host<impl Abort>,
    wait: &impl Wait,
    worker: &mut Worker<u64>,
    mail: &Mail,
    word: &str,
) {
    holds(rt, word, goes_round(rt, wait, worker, mail, &Silent));
}

/// A worker has the token of the sender, which another one does not get.
fn keeps_token(rt: &impl Abort, wait: &impl Wait, own: &Worker<u64>, other: &mut Worker<u64>) {
    is_token(rt, "and has the token", own.hand, Some(token(0)));
    holds(rt, "which nobody steals", !other.acquire(wait));
}

/// Looks that a worker carries no message, but what was woken, which leaves its hand.
fn carries_what_was_woken(rt: &impl Abort, own: &mut Worker<u64>) {
    holds(rt, "it carries none", own.transit.message.is_none());
    let woken = own.transit.woken.take();
    is_token(rt, "but what was woken", woken, Some(token(1)));
}

#[test]
fn a_token_stays_with_the_worker_that_carries(rt: HostRuntime) {
    let wait = rt;
    let rt = Host::with_memory(rt);
    let mail = Mail::new(rt.alloc(), 1, 1, 1, 1).expect(&rt, "machines");
    let (_inlet, mut all) = workers(&rt, 2);
    let mut other = all.pop().expect(&rt, "a second worker");
    let mut own = all.pop().expect(&rt, "a first worker");
    carries(&rt, &wait, &mut own, &mut other, &mail);
    delivers_and_rests(&rt, &wait, &mut own, &mut other, &mail);
    rt.end_with_memory();
}

/// A worker gets the sender's token, and carries its message, which is refused.
fn carries(
    rt: &Host<impl Abort>,
    wait: &impl Wait,
    own: &mut Worker<u64>,
    other: &mut Worker<u64>,
    mail: &Mail,
) {
    let put = own.lane.put_local(token(0));
    same(rt, "it gets a token", &put, &Ok(()));
    goes_on(rt, wait, own, mail, "its message is refused");
    holds(rt, "it carries it", own.transit.message.is_some());
    keeps_token(rt, wait, own, other);
}

/// The message that a worker carries is delivered, and then the sender rests.
fn delivers_and_rests(
    rt: &Host<impl Abort>,
    wait: &impl Wait,
    own: &mut Worker<u64>,
    other: &mut Worker<u64>,
    mail: &Mail,
) {
    goes_on(rt, wait, own, mail, "its message is delivered");
    carries_what_was_woken(rt, own);
    keeps_token(rt, wait, own, other);
    goes_on(rt, wait, own, mail, "the sender rests");
    is_token(rt, "the hand is empty", own.hand, None);
    is_number(rt, "one arrived", mail.delivered(), 1);
}

#[test]
fn a_message_in_the_hand_is_served_first(rt: HostRuntime) {
    let rt = Host::with_memory(rt);
    let mail = Mail::new(rt.alloc(), 1, 1, 2, 1).expect(&rt, "machines");
    let mut hand = Hand::new();
    comes_back(&rt, &mail, &mut hand, "the token comes back with a message");
    is_number(&rt, "one is carried", mail.carried(), 1);
    comes_back(&rt, &mail, &mut hand, "the token comes back without one");
    one_of_two_was_delivered(&rt, &mail);
    rt.end_with_memory();
}

/// The sender's token is served with nothing woken in the hand, and comes back.
fn comes_back(rt: &impl Abort, mail: &Mail, hand: &mut Hand<u64>, word: &str) {
    hand.woken = None;
    let back = serve_one(mail, token(0), 5, hand);
    is_token(rt, word, back, Some(token(0)));
}

/// Looks that of two messages one was delivered, and that the other waits.
fn one_of_two_was_delivered(rt: &impl Abort, mail: &Mail) {
    is_number(rt, "it was delivered", mail.delivered(), 1);
    is_number(rt, "none is carried", mail.carried(), 0);
    is_number(rt, "one waits", mail.waiting(), 1);
}
