//! Posts that a port follows, here and in another thread, and a counter that is made again where memory was refused.
mod host;

ghost use Rattle.std.specs.Prelude.{◌≡◌, ◌+◌, [], ◌∷◌, ◌++◌, length};
ghost use Rattle.st_post_counter.specs.Seen.{whole, part, IsWhole};

use crate::{Counter, Endpoint};
use host::{Host, got, same};
use std::process::Abort;
use std::thread;

/// A counter with its two endpoints. Where memory was refused, it is made again.
fn new_counter(rt: &Host<impl Abort + AllocGlobal>) -> (Counter<u64>, Endpoint<u64>, Endpoint<u64>)
    ensures machine { result.1 ≡ record { counter = result.0; seen = whole [] } }
    ensures port { result.2 ≡ record { counter = result.0; seen = part [] } }
{
    if let Ok(made) = Counter::open(rt.alloc()) {
        return made;
    }
    rt.retry();
    let made = Counter::open(rt.alloc());
    got(rt, "one allocation alone is refused", made)
}

/// Looks at the word of a counter.
fn counts(rt: &impl Abort, counter: &Counter<u64>, count: u64) {
    same(rt, "the word", &counter.table.shared.peek(0), &count);
}

/// The machine's endpoint sees a post more, the word is the new count, and the port's endpoint follows.
fn post(
    rt: &Host<impl Abort>,
    counter: &Counter<u64>,
    machine: &mut Endpoint<u64>,
    port: &mut Endpoint<u64>,
    count: u64,
    post: u64,
)
    requires counter { (machine.old.counter ≡ counter.now) × (port.old.counter ≡ counter.now) }
    requires whole { IsWhole machine.old.seen }
    requires part { port.old.seen ≡ part machine.old.seen.posts }
    requires count { count ≡ length machine.old.seen.posts + 1 }
    ensures machine { machine.new ≡ record machine.old { seen = whole (machine.old.seen.posts ++ post ∷ []) } }
    ensures port { port.new ≡ record port.old { seen = part (machine.old.seen.posts ++ post ∷ []) } }
{
    counter.add(machine, count, &post);
    counts(rt, counter, count);
    counter.follow(machine, port);
    counts(rt, counter, count);
}

/// Three posts are added and followed.
fn post_three(
    rt: &Host<impl Abort>,
    counter: &Counter<u64>,
    machine: &mut Endpoint<u64>,
    port: &mut Endpoint<u64>,
)
    requires machine { machine.old ≡ record { counter = counter.now; seen = whole [] } }
    requires port { port.old ≡ record { counter = counter.now; seen = part [] } }
    ensures machine { machine.new ≡ record { counter = counter.now; seen = whole (70 ∷ 80 ∷ 70 ∷ []) } }
    ensures port { port.new ≡ record { counter = counter.now; seen = part (70 ∷ 80 ∷ 70 ∷ []) } }
{
    post(rt, counter, machine, port, 1, 70);
    post(rt, counter, machine, port, 2, 80);
    post(rt, counter, machine, port, 3, 70);
}

#[test]
fn a_port_follows_three_posts(rt: HostRuntime) {
    let rt = Host::new(rt);
    let (counter, mut machine, mut port) = new_counter(&rt);
    counts(&rt, &counter, 0);
    post_three(&rt, &counter, &mut machine, &mut port);
    counter.agree(&mut machine, &mut port);
    counts(&rt, &counter, 3);
    rt.end();
}

#[test]
fn another_thread_posts(rt: HostRuntime) {
    let threads = rt;
    let rt = Host::new(rt);
    let (counter, mut machine, mut port) = new_counter(&rt);
    let posts = move || -> u64
        requires machine { machine ≡ record { counter = counter; seen = whole [] } }
        requires port { port ≡ record { counter = counter; seen = part [] } }
    {
        counter.add(&mut machine, 1, &70);
        counter.follow(&mut machine, &mut port);
        counter.agree(&mut machine, &mut port);
        counter.table.shared.peek(0)
    };
    let child = match thread::spawn(&threads, posts) {
        Ok(child) => child,
        Err(refused) => {
            rt.retry();
            let again = thread::spawn(&threads, refused.value);
            got(&rt, "one allocation alone is refused", again)
        }
    };
    same(&rt, "the word", &child.join(&threads), &1);
    rt.end();
}
