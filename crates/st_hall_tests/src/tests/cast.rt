//! Events are posted and cast, and what is seen of machines that were served.
use super::host::{got, holds};
use super::plain::Plain;
use st_client::cast;
use st_hall::{Port, Token};
use st_lock::Entry;
use st_pool::Scheduler;
use std::process::Abort;
use std::sync::Wait;

/// Posts an event that inserts one more to a machine at rest, and answers its number and the token that was issued.
pub fn posts(rt: &impl Abort, threads: &impl Wait, port: &mut Port<Plain>) -> (u64, Token) {
    let posted = got(rt, "it is posted", port.post(threads, Entry::Cast, 2));
    (posted.number, posted.wake.expect(rt, "it was at rest"))
}

/// Which of two contents is cast to the machine of a place: one to every other machine.
fn content_of(place: usize, contents: (u32, u32)) -> u32 {
    if place % 2 == 0 {
        contents.0
    } else {
        contents.1
    }
}

/// Casts through each of some ports one of two contents, in turn. If a token was issued, it is scheduled.
pub fn casts_each(
    rt: &impl Abort,
    threads: &impl Wait,
    ports: &mut Vec<Port<Plain>>,
    scheduler: &Scheduler,
    contents: (u32, u32),
) {
    for (place, port) in ports.iter_mut().enumerate() {
        let sent = cast(threads, port, scheduler, content_of(place, contents));
        let sent = got(rt, "it is posted", sent);
        holds(rt, "its token is scheduled", sent.left == None);
    }
}

/// Looks that the machines of some ports rest that have made so many entries each, kept or not.
pub fn are_at_rest(
    rt: &impl Abort,
    threads: &impl Wait,
    ports: &mut Vec<Port<Plain>>,
    entries: u64,
) {
    for port in ports.iter_mut() {
        let look = got(rt, "there is memory", port.look(threads));
        holds(rt, "it has no work", look.waiting == 0);
        holds(rt, "its entries", look.entries == entries);
        drop(look);
    }
}

/// Casts twice more through each of some ports, which have posted so many events, with nobody to serve them. Each port has
/// posted as many then, its machine counts as many, and shows the numbers of those that it keeps, if it keeps a journal.
pub fn casts_twice_more(
    rt: &impl Abort,
    threads: &impl Wait,
    ports: &mut Vec<Port<Plain>>,
    posts: u64,
    keeps: bool,
) {
    let posts = posts.saturating_add(2);
    let kept = if keeps { posts } else { 0 };
    for port in ports.iter_mut() {
        for _ in 0..2 {
            got(rt, "it is posted", port.post(threads, Entry::Cast, 1));
        }
        let look = got(rt, "there is memory", port.look(threads));
        holds(rt, "the posts of the port", port.count() == posts);
        holds(rt, "they are mine", look.mine == posts);
        let numbers = look.numbers.as_slice().len() as u64;
        drop(look);
        holds(rt, "their numbers are mine", numbers == kept);
    }
}
