//! Tests of st_queue: each call once with memory at hand, and all of them where one allocation is refused.
ghost use Rattle.std.specs.Prelude.{◌≡◌, ◌<◌};

use super::host::{Host, holds, is_letter, same};
use st_queue::EventQueue;
use st_steps::Steps;
use std::alloc::Global;
use std::io::Print;
use std::marker::{Brand, Send};
use std::process::Abort;
use std::sync::ledger::{Blank, Ledger};

/// A call of a queue, or a look at it, and what it is to answer.
#[derive(Clone, Copy)]
enum Call {
    /// These events are pushed.
    Push(&'static [char]),
    /// So many nodes are to be ready.
    Stage(usize),
    /// An event comes in at the cursor, on a node that is ready.
    Insert(char),
    /// An event comes in at the end, on a node that is ready.
    PushStaged(char),
    /// So many events are passed over.
    Skip(usize),
    /// These events are passed over.
    SkipThese(&'static [char]),
    /// These events are taken out.
    Take(&'static [char]),
    /// The cursor goes back to the first event.
    Rewind,
    /// None is there to take or to pass over.
    AtEnd,
    /// With a word, all that can be read: how many events there are, how many of them stand before the cursor, how many
    /// nodes are ready, and the event at the cursor.
    Shows(&'static str, usize, usize, usize, Option<char>),
}

/// All that can be read of a queue without a change to it.
fn readable(queue: &EventQueue<char>) -> (usize, bool, usize, usize, Option<char>) {
    (
        queue.len(),
        queue.is_empty(),
        queue.before(),
        queue.staged(),
        queue.peek().copied(),
    )
}

/// Looks at all that can be read: how many events there are, how many of them stand before the cursor, how many nodes
/// are ready, and the event at the cursor.
fn shows(
    rt: &impl Abort,
    word: &str,
    queue: &EventQueue<char>,
    len: usize,
    before: usize,
    staged: usize,
    event: Option<char>,
) {
    same(
        rt,
        word,
        &readable(queue),
        &(len, len == 0, before, staged, event),
    );
}

/// Pushes an event. A push that finds no memory changes nothing that can be read, and is made again.
fn push<L: Ledger>(
    rt: &Host<impl Abort>,
    queue: &mut EventQueue<char>,
    event: char,
    steps: &mut Steps<L>,
) {
    let before = readable(queue);
    if let Err(failed) = queue.push_back(event, steps) {
        holds(rt, "the event comes back", failed.value == event);
        holds(
            rt,
            "a refused push changes nothing",
            readable(queue) == before,
        );
        rt.retry();
        let again = queue.push_back(event, steps).is_ok();
        holds(rt, "one allocation alone is refused", again);
    }
}

/// Pushes events one after the other.
fn push_all<L: Ledger>(
    rt: &Host<impl Abort>,
    queue: &mut EventQueue<char>,
    events: &[char],
    steps: &mut Steps<L>,
) {
    for event in events {
        push(rt, queue, *event, steps);
    }
}

/// Stages nodes. A call that finds no memory changes nothing that can be read, and is made again.
fn stage<L: Ledger>(
    rt: &Host<impl Abort>,
    queue: &mut EventQueue<char>,
    count: usize,
    steps: &mut Steps<L>,
) {
    let before = readable(queue);
    if queue.stage(count, steps).is_err() {
        holds(
            rt,
            "a refused stage changes nothing",
            readable(queue) == before,
        );
        rt.retry();
        let again = queue.stage(count, steps).is_ok();
        holds(rt, "one allocation alone is refused", again);
    }
}

/// Puts an event at the cursor, on a node that is ready.
fn insert_staged<L: Ledger>(
    rt: &impl Abort,
    queue: &mut EventQueue<char>,
    event: char,
    steps: &mut Steps<L>,
) {
    holds(rt, "a node is ready", queue.staged() > 0);
    queue.insert_staged(event, steps);
}

/// Puts an event at the end, on a node that is ready.
fn push_staged<L: Ledger>(
    rt: &impl Abort,
    queue: &mut EventQueue<char>,
    event: char,
    steps: &mut Steps<L>,
) {
    holds(rt, "a node is ready", queue.staged() > 0);
    queue.push_staged(event, steps);
}

/// Passes over so many events.
fn skip<L: Ledger>(
    rt: &impl Abort,
    queue: &mut EventQueue<char>,
    count: usize,
    steps: &mut Steps<L>,
) {
    for _ in 0..count {
        holds(
            rt,
            "there is one to pass over",
            queue.skip(steps) == Some(()),
        );
    }
}

/// Passes over these events.
fn skip_these<L: Ledger>(
    rt: &impl Abort,
    queue: &mut EventQueue<char>,
    events: &[char],
    steps: &mut Steps<L>,
) {
    for event in events {
        is_letter(rt, "the next", queue.peek().copied(), Some(*event));
        holds(rt, "it is passed over", queue.skip(steps) == Some(()));
    }
}

/// Takes these events out.
fn take_these<L: Ledger>(
    rt: &impl Abort,
    queue: &mut EventQueue<char>,
    events: &[char],
    steps: &mut Steps<L>,
) {
    for event in events {
        holds(rt, "there is one to take", !queue.is_empty());
        is_letter(rt, "what is taken", queue.remove(steps), Some(*event));
    }
}

/// Looks that none is there to take or to pass over.
fn is_at_end<L: Ledger>(rt: &impl Abort, queue: &mut EventQueue<char>, steps: &mut Steps<L>) {
    holds(rt, "none to take", queue.remove(steps) == None);
    holds(rt, "none to pass over", queue.skip(steps) == None);
}

/// Makes a call, and looks at its answer.
fn make<L: Ledger>(
    rt: &Host<impl Abort>,
    queue: &mut EventQueue<char>,
    call: Call,
    steps: &mut Steps<L>,
) {
    match call {
        Call::Push(events) => push_all(rt, queue, events, steps),
        Call::Stage(count) => stage(rt, queue, count, steps),
        Call::Insert(event) => insert_staged(rt, queue, event, steps),
        Call::PushStaged(event) => push_staged(rt, queue, event, steps),
        Call::Skip(count) => skip(rt, queue, count, steps),
        Call::SkipThese(events) => skip_these(rt, queue, events, steps),
        Call::Take(events) => take_these(rt, queue, events, steps),
        Call::Rewind => queue.rewind(steps),
        Call::AtEnd => is_at_end(rt, queue, steps),
        Call::Shows(word, len, before, staged, event) => {
            shows(rt, word, queue, len, before, staged, event);
        }
    }
}

/// Makes calls one after the other, from no event on, and looks at their answers. It makes its count of steps from a
/// blank.
fn answer_all<L: Ledger>(rt: &Host<impl Abort>, alloc: Global, blank: Blank, calls: &[Call])
    requires name { blank.name ≡ L.name }
    requires parts { blank.parts ≡ L.parts }
    requires some { 0 < blank.parts }
{
    let mut steps = Steps::<L>::new(blank);
    let mut queue = EventQueue::new(alloc);
    for call in calls {
        make(rt, &mut queue, *call, &mut steps);
    }
}

/// Events come in at both ends of the cursor and leave, others come in behind them, and all are passed over in order.
#[test]
fn each_call_answers(rt: HostRuntime) {
    static CALLS: [Call; 22] = [
        Call::Shows("no event", 0, 0, 0, None),
        Call::Push(&['a', 'b', 'c', 'd', 'e']),
        Call::Skip(2),
        Call::Take(&['c']),
        Call::Shows("one left", 4, 2, 0, Some('d')),
        Call::Stage(2),
        Call::Shows("two nodes are ready", 4, 2, 2, Some('d')),
        Call::Insert('y'),
        Call::Insert('x'),
        Call::Shows("two are inserted", 6, 2, 0, Some('x')),
        Call::Rewind,
        Call::Shows("the cursor is back", 6, 0, 0, Some('a')),
        Call::Stage(2),
        Call::Push(&['f']),
        Call::Shows("a push uses no node", 7, 0, 2, Some('a')),
        Call::Skip(1),
        Call::PushStaged('g'),
        Call::Shows("a staged one uses one", 8, 1, 1, Some('b')),
        Call::Rewind,
        Call::SkipThese(&['a', 'b', 'x', 'y', 'd', 'e', 'f', 'g']),
        Call::AtEnd,
        Call::Shows("all are passed over", 8, 8, 1, None),
    ];
    let rt = Host::new(rt);
    answer_all::<Brand>(&rt, rt.alloc(), Blank::new(1), &CALLS);
    rt.end();
}

#[test]
fn a_refused_call_changes_nothing(rt: HostRuntime) {
    static CALLS: [Call; 11] = [
        Call::Push(&['a', 'b', 'c', 'd']),
        Call::Skip(2),
        Call::Push(&['e']),
        Call::Take(&['c']),
        Call::Push(&['f', 'g', 'h', 'i']),
        Call::Skip(6),
        Call::Push(&['j']),
        Call::Shows("nine are there", 9, 8, 0, Some('j')),
        Call::Rewind,
        Call::Take(&['a', 'b', 'd', 'e', 'f', 'g', 'h', 'i', 'j']),
        Call::Shows("none is left", 0, 0, 0, None),
    ];
    let rt = Host::new(rt);
    answer_all::<Brand>(&rt, rt.alloc(), Blank::new(1), &CALLS);
    rt.end();
}

/// Pushes take memory, and keep the three nodes that are ready. Twenty nodes that are ready take ten events at the cursor
/// and ten at the end.
#[test]
fn a_staged_event_takes_no_memory(rt: HostRuntime) {
    static CALLS: [Call; 38] = [
        Call::Stage(3),
        // A smaller count makes no node and takes none away.
        Call::Stage(1),
        Call::Shows("three nodes stay ready", 0, 0, 3, None),
        Call::Push(&['a']),
        Call::Shows("a push uses no node", 1, 0, 3, Some('a')),
        Call::Push(&['b']),
        Call::Shows("a push uses no node", 2, 0, 3, Some('a')),
        Call::Push(&['c']),
        Call::Shows("a push uses no node", 3, 0, 3, Some('a')),
        Call::Push(&['d']),
        Call::Shows("a push uses no node", 4, 0, 3, Some('a')),
        Call::Push(&['e']),
        Call::Shows("a push uses no node", 5, 0, 3, Some('a')),
        Call::Push(&['f']),
        Call::Shows("a push uses no node", 6, 0, 3, Some('a')),
        Call::Stage(20),
        Call::Insert('x'),
        Call::PushStaged('y'),
        Call::Insert('x'),
        Call::PushStaged('y'),
        Call::Insert('x'),
        Call::PushStaged('y'),
        Call::Insert('x'),
        Call::PushStaged('y'),
        Call::Insert('x'),
        Call::PushStaged('y'),
        Call::Insert('x'),
        Call::PushStaged('y'),
        Call::Insert('x'),
        Call::PushStaged('y'),
        Call::Insert('x'),
        Call::PushStaged('y'),
        Call::Insert('x'),
        Call::PushStaged('y'),
        Call::Insert('x'),
        Call::PushStaged('y'),
        Call::Shows("each node is used", 26, 0, 0, Some('x')),
        Call::Take(&[
            'x', 'x', 'x', 'x', 'x', 'x', 'x', 'x', 'x', 'x', 'a', 'b', 'c', 'd', 'e', 'f', 'y',
        ]),
    ];
    let rt = Host::new(rt);
    answer_all::<Brand>(&rt, rt.alloc(), Blank::new(1), &CALLS);
    rt.end();
}

/// Takes what may cross threads, and gives it back.
fn sent<T: Send>(value: T) -> T {
    value
}

/// Pushes a number. A push that finds no memory says which it is, and is made again.
fn push_number<L: Ledger>(
    rt: &Host<impl Abort>,
    output: &impl Print,
    queue: &mut EventQueue<u32>,
    number: u32,
    steps: &mut Steps<L>,
) {
    if queue.push_back(number, steps).is_err() {
        rt.retry();
        let _ = println!(output; "push {number} was refused");
        let again = queue.push_back(number, steps).is_ok();
        holds(rt, "one allocation alone is refused", again);
    }
}

/// Takes the numbers from 1 on out, so many.
fn take_numbers<L: Ledger>(
    rt: &impl Abort,
    queue: &mut EventQueue<u32>,
    count: u32,
    steps: &mut Steps<L>,
) {
    for number in 1..=count {
        let taken = queue.remove(steps);
        same(rt, "what is taken", &taken, &Some(number));
    }
}

/// Pushes a thousand events. Each takes memory, so where one allocation is refused, one push is, and it says which.
fn a_thousand<L: Ledger>(rt: &Host<impl Abort>, output: &impl Print, alloc: Global, blank: Blank)
    requires name { blank.name ≡ L.name }
    requires parts { blank.parts ≡ L.parts }
    requires some { 0 < blank.parts }
{
    let mut steps = Steps::<L>::new(blank);
    let mut queue = sent(EventQueue::new(alloc));
    for number in 1..=1_000u32 {
        push_number(rt, output, &mut queue, number, &mut steps);
    }
    holds(rt, "a thousand are there", queue.len() == 1_000);
    take_numbers(rt, &mut queue, 1_000, &mut steps);
}

#[test]
fn a_thousand_events_come_in(rt: HostRuntime) {
    let output = rt;
    let rt = Host::new(rt);
    a_thousand::<Brand>(&rt, &output, rt.alloc(), Blank::new(1));
    rt.end();
}
