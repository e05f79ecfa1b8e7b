//! What a server does with its machine.

use crate::log::tell;
use crate::server::Textual;
use crate::time::{LIMIT, due, tick};
use st_core::{Collected, Core, Entry, Refusal, Report, Turned};
use std::alloc::{AllocError, Global};

/// Takes the replies of a turn, and writes them down.
fn tell_replies<M: Textual>(
    core: &mut Core<M>,
    report: &Report<M::State>,
    alloc: Global,
    log: &mut String,
) -> Result<(), AllocError> {
    let now = core.latest();
    for tag in report.replied.as_slice() {
        if let Collected::Reply(content) = core.collect(*tag) {
            let text = M::reply_text(alloc, content, report.after);
            tell(alloc, now, text, log)?;
        }
    }
    Ok(())
}

/// Takes the messages that the machine has sent, and writes them down.
pub fn tell_messages<M: Textual>(
    core: &mut Core<M>,
    alloc: Global,
    log: &mut String,
) -> Result<(), AllocError> {
    let now = core.latest();
    for _ in 0..LIMIT {
        let Some(message) = core.take_out() else {
            break;
        };
        tell(alloc, now, M::message_text(alloc, message.content), log)?;
    }
    Ok(())
}

/// Writes down what a turn said.
fn tell_turn<M: Textual>(
    core: &mut Core<M>,
    report: &Report<M::State>,
    alloc: Global,
    log: &mut String,
) -> Result<(), Refusal> {
    tell_replies(core, report, alloc, log)?;
    tell_messages(core, alloc, log)?;
    Ok(())
}

/// Gives the machine a turn, and writes down what it said.
fn handle<M: Textual>(core: &mut Core<M>, alloc: Global, log: &mut String) -> Result<(), Refusal> {
    let now = core.latest();
    match core.turn(now)? {
        Turned::Reported(report) => {
            let told = tell_turn(core, &report, alloc, log);
            drop(report);
            told
        }
        Turned::Idle => Ok(()),
    }
}

/// Gives the machine turns until there is nothing to handle, or it has ended.
fn handle_all<M: Textual>(
    core: &mut Core<M>,
    alloc: Global,
    log: &mut String,
) -> Result<(), Refusal> {
    for _ in 0..LIMIT {
        if !core.has_event() {
            break;
        }
        handle(core, alloc, log)?;
    }
    Ok(())
}

/// Lets time pass to a moment: each time-out that is due by then expires at its own moment, and is handled.
pub fn let_time_pass<M: Textual>(
    core: &mut Core<M>,
    moment: u64,
    alloc: Global,
    log: &mut String,
) -> Result<(), Refusal> {
    for _ in 0..LIMIT {
        let Some(due) = due(core).filter(|due| *due <= moment) else {
            break;
        };
        core.tick_to(due)?;
        handle_all(core, alloc, log)?;
    }
    tick(core, moment)
}

/// Tells the machine something, and lets it handle what it can.
pub fn post<M: Textual>(
    core: &mut Core<M>,
    entry: Entry,
    content: M::Content,
    alloc: Global,
    log: &mut String,
) -> Result<(), Refusal> {
    core.post(entry, content)?;
    handle_all(core, alloc, log)
}
