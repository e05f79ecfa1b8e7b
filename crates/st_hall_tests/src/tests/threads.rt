//! Threads that call one door, which another thread serves or stops.
use super::caller::{Caller, first_caller};
use super::doors::no_door;
use super::host::{Host, Platform, got, holds};
use super::served::serve;
use st_pool::Runtime;
use std::process::Abort;
use std::thread::{self, JoinHandle};

/// What a call for the length of the code came to: the length, or the reason for which the door ended.
type Came = Result<usize, Option<u32>>;

/// Another thread calls a door.
fn calls<R: Runtime>(rt: &impl Abort, threads: R, caller: Caller) -> JoinHandle<Came> {
    let child = thread::spawn(&threads, move || caller.length(&threads));
    child.expect(rt, "a thread")
}

/// Waits for a thread, and looks what its call came to.
fn comes_to<R: Runtime>(
    rt: &impl Abort,
    threads: R,
    child: JoinHandle<Came>,
    word: &str,
    wanted: Came,
) {
    holds(rt, word, child.join(&threads) == wanted);
}

/// Two other threads call a door.
fn two_call<R: Runtime>(
    rt: &Host<impl Abort>,
    threads: R,
    ours: &Caller,
) -> (JoinHandle<Came>, JoinHandle<Came>) {
    let first = ours.another(rt, &threads);
    let second = ours.another(rt, &threads);
    let first = calls(rt, threads, first);
    (first, calls(rt, threads, second))
}

/// Two other threads call a door, and get the length of its code. The door is served until two calls were answered, each by one
/// turn. A token may be issued for both.
fn two_get_the_length<R: Runtime>(rt: &Host<impl Abort>, threads: R, ours: &mut Caller) {
    let (first, second) = two_call(rt, threads, ours);
    for _ in threads.forever() {
        let token = ours.tray.take(&threads);
        serve(rt, &threads, ours.port.machine(), token);
        let look = got(rt, "a look", ours.port.look(&threads));
        let are_answered = look.waiting == 0 && look.entries >= 4;
        drop(look);
        if are_answered {
            break;
        }
    }
    comes_to(rt, threads, first, "the length of the code", Ok(2));
    comes_to(rt, threads, second, "the length of the code", Ok(2));
}

/// Another thread calls a door, which is stopped, and is told the reason.
fn one_is_told<R: Runtime>(rt: &Host<impl Abort>, threads: R, ours: &Caller) {
    let theirs = ours.another(rt, &threads);
    let child = calls(rt, threads, theirs);
    let token = ours.tray.take(&threads);
    holds(rt, "the token is scheduled", token.wake == 1);
    let stopped = ours.port.machine().stop(&threads, 3);
    got(rt, "it is stopped", stopped);
    let ended = Err(Some(3));
    comes_to(rt, threads, child, "the reason is told", ended);
}

/// Two other threads call a door, which is stopped once two calls were posted, and are told the reason. That they wait for
/// a reply then, nobody else can see.
fn two_are_told<R: Runtime>(rt: &Host<impl Abort>, threads: R, ours: &mut Caller) {
    let (first, second) = two_call(rt, threads, ours);
    for _ in threads.forever() {
        let look = got(rt, "a look", ours.port.look(&threads));
        let waiting = look.waiting;
        drop(look);
        if waiting == 2 {
            break;
        }
        thread::yield_now();
    }
    let stopped = ours.port.machine().stop(&threads, 7);
    got(rt, "it is stopped", stopped);
    let ended = Err(Some(7));
    comes_to(rt, threads, first, "the first is told the reason", ended);
    let ended = Err(Some(7));
    comes_to(rt, threads, second, "the second is told the reason", ended);
}

/// What becomes of a door that other threads call.
#[derive(Clone, Copy)]
enum Fate {
    /// Two call it, and it is served.
    Served,
    /// One calls it, and it is stopped.
    StoppedAtOne,
    /// Two call it, and it is stopped.
    StoppedAtTwo,
}

/// A whole test: other threads call a door that has a code of these digits. All find memory.
fn meets<R: Runtime + Platform>(rt: R, digits: &[u8], fate: Fate) {
    let threads = rt;
    let rt = Host::with_memory(rt);
    let mut doors = no_door(&rt, rt.alloc(), digits);
    let mut ours = first_caller(&rt, &threads, &mut doors);
    match fate {
        Fate::Served => two_get_the_length(&rt, threads, &mut ours),
        Fate::StoppedAtOne => one_is_told(&rt, threads, &ours),
        Fate::StoppedAtTwo => two_are_told(&rt, threads, &mut ours),
    }
    drop(ours);
    drop(doors);
    rt.end_with_memory();
}

#[test]
fn two_threads_get_the_length_each(rt: HostRuntime) {
    meets(rt, &[1, 2], Fate::Served);
}

#[test]
fn a_call_ends_with_its_machine(rt: HostRuntime) {
    meets(rt, &[1, 2, 3, 4], Fate::StoppedAtOne);
}

#[test]
fn two_calls_end_with_their_machine(rt: HostRuntime) {
    meets(rt, &[1, 2, 3, 4], Fate::StoppedAtTwo);
}
