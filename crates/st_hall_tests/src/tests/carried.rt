//! Workers carry messages from machine to machine.
ghost use Rattle.std.specs.Prelude.{◌≤◌};

use super::begun::{FIRST, id, mark};
use super::host::{Host, got, holds, same};
use super::ring::Ring;
use super::rings::{Told, opened, starts, told_of};
use super::turnstile::Turnstile;
use st_client::cast;
use st_hall::{Hall, MachineId, Port, Registry, Undelivered};
use st_lock::{JournalEntry, Machine, Source, Token};
use st_pool::{Pool, PoolEnd, Runtime};
use std::process::Abort;
use std::sync::{Arc, Wait};

/// No message was lost.
static NONE_LOST: Undelivered = Undelivered {
    stopped: 0,
    exhausted: 0,
    missing: 0,
};

/// How many machines send to one.
const SENDERS: usize = 100;

/// How many messages each of them sends.
const MESSAGES: u64 = 10;

/// A pool of workers, which serve a hall behind a gate that is open, and ports of the hall's machines.
#[derive(Drop)]
struct Carriers<R: Runtime> {
    pool: Box<Pool<R, u32>>,
    gate: Arc<Turnstile>,
    hall: Arc<Hall<Ring, R>>,
    ports: Vec<Port<Ring>>,
}

/// The machine of the next slot of a ring of so many, whose serials are one above the slots.
fn next_of(slot: usize, count: usize) -> MachineId {
    let next = if slot.saturating_add(1) < count {
        slot.saturating_add(1)
    } else {
        0
    };
    id(next, (next as u64).saturating_add(1))
}

/// Starts so many machines. In a ring each sends to the next one, and the last one to the first; else all send to the first
/// one. A port of each machine that sends to another.
fn ports_of<R: Wait + Drop>(
    rt: &Host<impl Abort + AllocGlobal>,
    threads: &impl Wait,
    hall: &Hall<Ring, R>,
    count: usize,
    is_ring: bool,
) -> Vec<Port<Ring>> {
    let mut ports = Vec::new(rt.alloc());
    for slot in 0..count {
        let to = if is_ring { next_of(slot, count) } else { FIRST };
        let started = starts(rt, hall, to);
        if started != to {
            let port = opened(rt, threads, hall, started);
            ports.push(port).expect(rt, "a place");
        }
    }
    ports
}

/// A gate that is open.
fn gate(rt: &Host<impl Abort + AllocGlobal>) -> Arc<Turnstile> {
    let mark = mark(rt, true);
    let gate = Turnstile::new(rt.alloc(), &mark, false).expect(rt, "a gate");
    drop(mark);
    gate
}

/// So many workers, who serve so many machines, in a ring or not.
fn carriers_of<R: Runtime>(
    rt: &Host<impl Abort + AllocGlobal>,
    threads: R,
    workers: usize,
    count: usize,
    is_ring: bool,
) -> Box<Carriers<R>>
    requires { (1 ≤ workers) × (workers ≤ 16) }
{
    let hall = Hall::new(threads, Registry::new(rt.alloc()));
    let hall = Arc::new(rt.alloc(), hall).expect(rt, "a hall");
    let ports = ports_of(rt, &threads, &*hall, count, is_ring);
    let gate = gate(rt);
    let pool = Pool::start(threads, rt.alloc(), workers, &hall, &gate);
    let pool = rt.boxed(rt.alloc(), pool.expect(rt, "a pool"));
    let carriers = Carriers {
        pool,
        gate,
        hall,
        ports,
    };
    rt.boxed(rt.alloc(), carriers)
}

/// Casts a number through each of the first ports, so often, and schedules the tokens that are issued.
fn casts<R: Runtime>(
    rt: &impl Abort,
    threads: R,
    carriers: &mut Carriers<R>,
    first: usize,
    times: u64,
    number: u32,
) {
    let scheduler = carriers.pool.scheduler().expect(rt, "a scheduler");
    for _ in 0..times {
        for (place, port) in carriers.ports.iter_mut().enumerate() {
            if place < first {
                let sent = cast(&threads, port, &scheduler, number);
                let sent = got(rt, "it is posted", sent);
                holds(rt, "its token is scheduled", sent.left == None);
            }
        }
    }
    drop(scheduler);
}

/// No message was lost, and a pool that has nothing to do leaves nothing.
fn is_over<R: Runtime>(rt: &impl Abort, carriers: &mut Carriers<R>) {
    same(rt, "none is lost", &carriers.hall.undelivered(), &NONE_LOST);
    let end = got(rt, "there is memory", carriers.pool.close());
    holds(rt, "no token is left", end.left.is_empty());
    holds(rt, "no message is carried", end.carried.is_empty());
    drop(end);
}

/// Counts the messages of each sender, at its slot, and looks that each has the number that follows.
fn counts_in_order(rt: &impl Abort, seen: &mut Vec<u64>, entry: &JournalEntry<u32, u32>) {
    let Source::Message(sender, number) = entry.source else {
        return;
    };
    let last = seen.get_mut(sender.slot).expect(rt, "it is a sender");
    let next = last.saturating_add(1);
    holds(rt, "its messages come in order", number == next);
    *last = next;
}

/// No message of any slot.
fn none_seen(rt: &Host<impl Abort + AllocGlobal>) -> Vec<u64> {
    let mut seen = Vec::new(rt.alloc());
    for _ in 0..SENDERS.saturating_add(1) {
        seen.push(0u64).expect(rt, "a place");
    }
    seen
}

/// The messages that came to a machine: those of each sender in order, all that it sent, and no more.
fn come_in_order(rt: &Host<impl Abort + AllocGlobal>, threads: &impl Wait, target: &Machine<Ring>) {
    let mut seen = none_seen(rt);
    let mut told = Told::new();
    let journal = got(rt, "there is memory", target.journal(threads, "a"));
    for entry in journal.entries.as_slice() {
        counts_in_order(rt, &mut seen, entry);
        told.count(entry);
    }
    drop(journal);
    for slot in 1..seen.len() {
        same(rt, "its messages", &seen[slot], &MESSAGES);
    }
    drop(seen);
    same(rt, "all were delivered", &told.delivered, &1_000);
}

/// A hundred machines send to one.
fn send_to_one<R: Runtime>(rt: &Host<impl Abort + AllocGlobal>, threads: R) {
    let mut carriers = carriers_of(rt, threads, 4, SENDERS.saturating_add(1), false);
    casts(rt, threads, &mut carriers, SENDERS, MESSAGES, 1);
    carriers.pool.drain();
    let target = carriers.hall.machine(FIRST).expect(rt, "it is there");
    come_in_order(rt, &threads, &*target);
    drop(target);
    is_over(rt, &mut carriers);
    drop(carriers);
}

#[test]
fn messages_of_a_hundred_senders_come_in_order(rt: HostRuntime) {
    let threads = rt;
    let rt = Host::with_memory(rt);
    send_to_one(&rt, threads);
    rt.end_with_memory();
}

/// All messages of a ring were sent, taken out and delivered.
fn went_round(rt: &impl Abort, told: Told) {
    same(rt, "sent", &told.sent, &10_000);
    same(rt, "taken out", &told.taken, &10_000);
    same(rt, "delivered", &told.delivered, &10_000);
}

/// So many workers hand a message round a ring of ten machines, 10,000 times.
fn goes_round<R: Runtime>(rt: &Host<impl Abort + AllocGlobal>, threads: R, workers: usize)
    requires { (1 ≤ workers) × (workers ≤ 16) }
{
    let mut carriers = carriers_of(rt, threads, workers, 10, true);
    casts(rt, threads, &mut carriers, 1, 1, 10_000);
    carriers.pool.drain();
    went_round(rt, told_of(rt, &threads, &carriers.ports));
    is_over(rt, &mut carriers);
    drop(carriers);
}

#[test]
fn a_message_goes_round_by_one_worker(rt: HostRuntime) {
    let threads = rt;
    let rt = Host::with_memory(rt);
    goes_round(&rt, threads, 1);
    rt.end_with_memory();
}

#[test]
fn a_message_goes_round_by_two_workers(rt: HostRuntime) {
    let threads = rt;
    let rt = Host::with_memory(rt);
    goes_round(&rt, threads, 2);
    rt.end_with_memory();
}

#[test]
fn a_message_goes_round_by_sixteen_workers(rt: HostRuntime) {
    let threads = rt;
    let rt = Host::with_memory(rt);
    goes_round(&rt, threads, 16);
    rt.end_with_memory();
}

/// The tokens that were left, also those of workers one of whose messages is carried.
fn tokens_of(rt: &Host<impl Abort + AllocGlobal>, end: &PoolEnd<u32>) -> Vec<Token> {
    let mut tokens = Vec::new(rt.alloc());
    for token in end.left.iter() {
        tokens.push(*token).expect(rt, "a place");
    }
    for (token, message) in end.carried.iter() {
        let is_its = message.sender == token.machine;
        holds(rt, "who carries has the sender's token", is_its);
        tokens.push(*token).expect(rt, "a place");
    }
    tokens
}

/// Takes all messages out of the machines of some tokens, and answers how many there were.
fn left_with<R: Wait + Drop>(
    rt: &impl Abort,
    threads: &impl Wait,
    hall: &Hall<Ring, R>,
    tokens: &[Token],
) -> u64 {
    let mut messages = 0u64;
    for token in tokens {
        let machine = hall.machine(token.machine).expect(rt, "it is there");
        for _ in 0..1_000 {
            let taken = machine.take_out(threads, *token);
            if got(rt, "it is its token", taken).is_none() {
                break;
            }
            messages = messages.saturating_add(1);
        }
        drop(machine);
    }
    messages
}

/// All messages that were sent are delivered, carried, or in an outbox of a machine whose token was left, each once.
fn are_all_there<R: Runtime>(
    rt: &Host<impl Abort + AllocGlobal>,
    threads: R,
    carriers: &Carriers<R>,
    end: &PoolEnd<u32>,
) {
    let told = told_of(rt, &threads, &carriers.ports);
    let carried = end.carried.len() as u64;
    let delivered = told.delivered.saturating_add(carried);
    same(rt, "delivered or carried", &delivered, &told.taken);
    let tokens = tokens_of(rt, end);
    let left = left_with(rt, &threads, &*carriers.hall, tokens.as_slice());
    drop(tokens);
    let sent = told.taken.saturating_add(left);
    same(rt, "taken out or left", &sent, &told.sent);
    same(rt, "none is lost", &carriers.hall.undelivered(), &NONE_LOST);
}

/// A pool is closed while messages go round.
fn is_closed_early<R: Runtime>(rt: &Host<impl Abort + AllocGlobal>, threads: R) {
    let mut carriers = carriers_of(rt, threads, 4, 16, true);
    casts(rt, threads, &mut carriers, 16, 1, 1_000_000_000);
    holds(rt, "they go round", carriers.gate.waits_for(5_000));
    let end = got(rt, "there is memory", carriers.pool.close());
    are_all_there(rt, threads, &carriers, &end);
    drop(end);
    drop(carriers);
}

#[test]
fn no_message_is_lost_where_a_pool_is_closed(rt: HostRuntime) {
    let threads = rt;
    let rt = Host::with_memory(rt);
    is_closed_early(&rt, threads);
    rt.end_with_memory();
}
