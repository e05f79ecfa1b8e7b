//! What the lift does with one of its machines.

use crate::log::add;
use crate::time::LIMIT;
use st_core::{Collected, Core, Done, Entry, Module, Refusal, Report, Turned};
use std::alloc::{AllocError, Global};
use std::fmt::Debug;

/// Writes down which state comes after a turn, where it is another, and the event, where it is postponed.
fn tell_course<S: Copy + Eq + Debug>(
    report: &Report<S>,
    now: u64,
    name: &str,
    alloc: Global,
    log: &mut String,
) -> Result<(), AllocError> {
    let (before, after) = (report.before, report.after);
    if before != after {
        add(
            log,
            format!(in alloc; "{now} {name}: {before:?} -> {after:?}\n"),
        )?;
    }
    if let (Done::PutOff, Some(event)) = (report.done, report.event) {
        add(
            log,
            format!(in alloc; "{now} {name} postpones event {event}\n"),
        )?;
    }
    Ok(())
}

/// Writes down the events that a turn inserted, and what it asked of timers.
fn tell_asked<S>(
    report: &Report<S>,
    now: u64,
    name: &str,
    alloc: Global,
    log: &mut String,
) -> Result<(), AllocError> {
    for event in report.inserted.as_slice() {
        add(
            log,
            format!(in alloc; "{now} {name} inserts event {event}\n"),
        )?;
    }
    for asked in report.set.as_slice() {
        let (timer, decision) = *asked;
        add(
            log,
            format!(in alloc; "{now} {name} timer {timer:?}: {decision:?}\n"),
        )?;
    }
    Ok(())
}

/// Writes down the reply to a call.
fn tell_reply<C: Debug + Drop>(
    now: u64,
    call: u64,
    content: C,
    name: &str,
    alloc: Global,
    log: &mut String,
) -> Result<(), AllocError> {
    add(
        log,
        format!(in alloc; "{now} {name} answers call {call}: {content:?}\n"),
    )
}

/// Takes the replies of a turn, and writes them down.
fn tell_replies<M: Module>(
    core: &mut Core<M>,
    report: &Report<M::State>,
    name: &str,
    alloc: Global,
    log: &mut String,
) -> Result<(), AllocError>
where
    M::Content: Debug,
{
    let now = core.latest();
    for tag in report.replied.as_slice() {
        if let Collected::Reply(content) = core.collect(*tag) {
            tell_reply(now, tag.request, content, name, alloc, log)?;
        }
    }
    Ok(())
}

/// Writes down what a turn did.
fn tell_turn<M: Module>(
    core: &mut Core<M>,
    report: &Report<M::State>,
    name: &str,
    alloc: Global,
    log: &mut String,
) -> Result<(), Refusal>
where
    M::State: Debug,
    M::Content: Debug,
{
    let now = core.latest();
    tell_course(report, now, name, alloc, log)?;
    tell_asked(report, now, name, alloc, log)?;
    tell_replies(core, report, name, alloc, log)?;
    Ok(())
}

/// Lets a machine handle the next event, and writes down what it did.
fn turn<M: Module>(
    core: &mut Core<M>,
    name: &str,
    alloc: Global,
    log: &mut String,
) -> Result<(), Refusal>
where
    M::State: Debug,
    M::Content: Debug,
{
    match core.turn(core.latest())? {
        Turned::Reported(report) => {
            let told = tell_turn(core, &report, name, alloc, log);
            drop(report);
            told
        }
        Turned::Idle => Ok(()),
    }
}

/// Hands an event to a machine that has not ended, and answers its number.
pub fn post<M: Module>(
    core: &mut Core<M>,
    entry: Entry,
    content: M::Content,
) -> Result<Option<u64>, Refusal> {
    if core.ended().is_some() {
        return Ok(None);
    }
    Ok(Some(core.post(entry, content)?))
}

/// Writes down what a machine sends.
fn tell_sent<C: Debug>(
    now: u64,
    content: &C,
    name: &str,
    alloc: Global,
    log: &mut String,
) -> Result<(), AllocError> {
    add(log, format!(in alloc; "{now} {name} sends {content:?}\n"))
}

/// Carries the messages of one machine to another, and writes them down.
fn carry<A: Module, B: Module<Content = A::Content>>(
    from: &mut Core<A>,
    to: &mut Core<B>,
    name: &str,
    alloc: Global,
    log: &mut String,
) -> Result<(), Refusal>
where
    A::Content: Debug,
{
    let now = from.latest();
    for _ in 0..LIMIT {
        let Some(message) = from.take_out() else {
            break;
        };
        tell_sent(now, &message.content, name, alloc, log)?;
        post(to, Entry::Info, message.content)?;
    }
    Ok(())
}

/// Lets a machine handle the next event, carries its messages to another, and writes it down.
fn work<A: Module, B: Module<Content = A::Content>>(
    core: &mut Core<A>,
    other: &mut Core<B>,
    name: &str,
    alloc: Global,
    log: &mut String,
) -> Result<(), Refusal>
where
    A::State: Debug,
    A::Content: Debug,
{
    turn(core, name, alloc, log)?;
    carry(core, other, name, alloc, log)
}

/// Lets two machines take turns until both are idle, and carries their messages.
pub fn settle<A: Module, B: Module<Content = A::Content>>(
    cabin: &mut Core<A>,
    door: &mut Core<B>,
    alloc: Global,
    log: &mut String,
) -> Result<(), Refusal>
where
    A::State: Debug,
    A::Content: Debug,
    B::State: Debug,
{
    for _ in 0..LIMIT {
        if !cabin.has_event() && !door.has_event() {
            break;
        }
        work(cabin, door, "cabin", alloc, log)?;
        work(door, cabin, "door", alloc, log)?;
    }
    Ok(())
}

/// Writes down the last word of a machine that is stopped.
fn tell_stop(
    now: u64,
    word: u32,
    name: &str,
    alloc: Global,
    log: &mut String,
) -> Result<(), AllocError> {
    add(
        log,
        format!(in alloc; "{now} {name} is stopped, with the word {word}\n"),
    )
}

/// Stops a machine that has not ended, and writes its last word down.
pub fn stop<M: Module>(
    core: &mut Core<M>,
    name: &str,
    alloc: Global,
    log: &mut String,
) -> Result<(), Refusal> {
    if core.ended().is_none() {
        let now = core.latest();
        let word = core.stop(0)?;
        tell_stop(now, word, name, alloc, log)?;
    }
    Ok(())
}
