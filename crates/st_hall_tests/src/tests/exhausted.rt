//! A machine whose turns are refused, since its numbers are used up.
use super::begun::{FIRST, mark};
use super::cast::posts;
use super::host::{Host, got, holds};
use super::mark::Mark;
use super::plain::Plain;
use super::sole::Sole;
use super::turnstile::Turnstile;
use st_core::{Core, Start};
use st_lock::{Machine, Token};
use st_pool::{Pool, Runtime};
use std::process::Abort;
use std::sync::{Arc, Wait};

/// The last number of an event.
const LAST: u64 = (1 << 63) - 1;

/// The machine that was started.
fn running(rt: &impl Abort, started: Start<Plain>) -> Core<Plain> {
    let Start::Running(core, report) = started else {
        panic!(rt; "it runs")
    };
    drop(report);
    core
}

/// What a machine is made of that has one number left.
fn core(rt: &Host<impl Abort + AllocGlobal>, mark: &Arc<Mark>) -> Core<Plain> {
    let plain = Plain::new(mark).expect(rt, "an owner");
    let started = Core::start_from(rt.alloc(), plain, FIRST, &(), 0, LAST);
    running(rt, got(rt, "it is started", started))
}

/// A machine that has one number left.
fn machine(rt: &Host<impl Abort + AllocGlobal>, mark: &Arc<Mark>) -> Arc<Machine<Plain>> {
    let made = Machine::new(rt.alloc(), core(rt, mark));
    let (machine, token) = got(rt, "it is made", made);
    holds(rt, "it has no work", token == None);
    Arc::new(rt.alloc(), machine).expect(rt, "an owner")
}

/// A machine as workers serve it.
fn sole<R: Runtime>(
    rt: &Host<impl Abort + AllocGlobal>,
    threads: R,
    machine: &Arc<Machine<Plain>>,
) -> Arc<Sole<R>> {
    let sole = Sole {
        rt: threads,
        machine: Arc::try_clone(machine).expect(rt, "an owner"),
    };
    Arc::new(rt.alloc(), sole).expect(rt, "an owner")
}

/// Posts an event with a machine's last number, which is to insert one more, and answers the token that was issued.
fn posted(rt: &impl Abort, threads: &impl Wait, machine: &Arc<Machine<Plain>>) -> Token {
    let mut port = Machine::port(machine, threads).expect(rt, "a port");
    let (_, token) = posts(rt, threads, &mut port);
    drop(port);
    token
}

/// A token goes round until its machine is stopped, and comes to rest then. The pool is closed.
fn goes_round<R: Runtime>(
    rt: &impl Abort,
    threads: R,
    pool: &mut Pool<R, u32>,
    gate: &Turnstile,
    machine: &Machine<Plain>,
) {
    holds(rt, "it goes round", gate.waits_for(1_000));
    holds(rt, "the last word", machine.stop(&threads, 5) == Ok(7));
    pool.drain();
    let end = got(rt, "there is memory", pool.close());
    holds(rt, "it went round", end.turns > 1_000);
    holds(rt, "no token is left", end.left.is_empty());
    drop(end);
}

/// Two workers serve a machine in vain by its token, until it is stopped.
fn serves_in_vain<R: Runtime>(
    rt: &Host<impl Abort + AllocGlobal>,
    threads: R,
    gate: &Arc<Turnstile>,
    machine: &Arc<Machine<Plain>>,
    token: Token,
) {
    let sole = sole(rt, threads, machine);
    let pool = Pool::start(threads, rt.alloc(), 2, &sole, gate);
    let mut pool = rt.boxed(rt.alloc(), pool.expect(rt, "a pool"));
    holds(rt, "it is scheduled", pool.schedule(token) == Ok(()));
    goes_round(rt, threads, &mut pool, &**gate, &**machine);
    drop(pool);
    drop(sole);
}

#[test]
fn a_token_goes_round_while_its_turn_is_refused(rt: HostRuntime) {
    let threads = rt;
    let rt = Host::with_memory(rt);
    let mark = mark(&rt, true);
    let machine = machine(&rt, &mark);
    let token = posted(&rt, &threads, &machine);
    let gate = Turnstile::new(rt.alloc(), &mark, false).expect(&rt, "a gate");
    serves_in_vain(&rt, threads, &gate, &machine, token);
    drop(gate);
    drop(machine);
    drop(mark);
    rt.end_with_memory();
}
