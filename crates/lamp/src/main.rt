//! A program around the module of a lamp, to be copied. It switches a lamp on and lets time pass, and prints what
//! each turn reports.
#![tactic(auto)]

use lamp_module::{Bulb, Lamp, Light, Press};
use st_core::{Core, Entry, MachineId, Module, Refusal, Report, Start, Turned};
use std::alloc::Global;
use std::fmt::Debug;
use std::process::ExitCode;

/// How many moments the program lets pass, and how many turns it makes at one.
const LIMIT: u32 = 100;

/// Writes down what a machine reported at a moment.
fn write<S: Debug>(
    now: u64,
    report: &Report<S>,
    alloc: Global,
    log: &mut String,
) -> Result<(), Refusal> {
    log.push_str(format!(in alloc; "{now}: {report:?}\n")?.as_str())?;
    Ok(())
}

/// Gives a machine a turn, and writes its report down.
fn handle_one<M: Module>(
    core: &mut Core<M>,
    now: u64,
    alloc: Global,
    log: &mut String,
) -> Result<(), Refusal>
where
    M::State: Debug,
{
    match core.turn(now)? {
        Turned::Idle => Ok(()),
        Turned::Reported(report) => {
            let written = write(now, &report, alloc, log);
            drop(report);
            written
        }
    }
}

/// Gives a machine turns until there is nothing to handle, and writes each report down.
fn handle_all<M: Module>(
    core: &mut Core<M>,
    now: u64,
    alloc: Global,
    log: &mut String,
) -> Result<(), Refusal>
where
    M::State: Debug,
{
    for _ in 0..LIMIT {
        if !core.has_event() {
            break;
        }
        handle_one(core, now, alloc, log)?;
    }
    Ok(())
}

/// The event loop: what waits is handled, and then time passes to the moment at which the next time-out is due.
fn let_time_pass<M: Module>(
    core: &mut Core<M>,
    alloc: Global,
    log: &mut String,
) -> Result<(), Refusal>
where
    M::State: Debug,
{
    for _ in 0..LIMIT {
        handle_all(core, core.latest(), alloc, log)?;
        let Some(due) = core.next_due() else {
            break;
        };
        core.tick_to(due)?;
    }
    Ok(())
}

/// Posts a cast, and lets time pass.
fn post_cast<M: Module>(
    core: &mut Core<M>,
    content: M::Content,
    alloc: Global,
    log: &mut String,
) -> Result<(), Refusal>
where
    M::State: Debug,
{
    core.post(Entry::Cast, content)?;
    let_time_pass(core, alloc, log)
}

/// Writes a machine's last word down.
fn write_word(word: u32, alloc: Global, log: &mut String) -> Result<(), Refusal> {
    log.push_str(format!(in alloc; "the last word: {word}\n")?.as_str())?;
    Ok(())
}

/// A lamp whose bulb can be turned on once: it is switched on and turns itself off, and then it stays dark.
fn use_up(
    lamp: &mut Core<Lamp>,
    report: &Report<Light>,
    alloc: Global,
    log: &mut String,
) -> Result<(), Refusal> {
    write(0, report, alloc, log)?;
    post_cast(lamp, Press::Switch, alloc, log)?;
    post_cast(lamp, Press::Switch, alloc, log)?;
    write_word(lamp.stop(7)?, alloc, log)
}

/// A lamp that runs, in a box, and what its start reported. `None`: it did not start.
fn started(alloc: Global) -> Result<Option<(Box<Core<Lamp>>, Report<Light>)>, Refusal> {
    let id = MachineId { slot: 0, serial: 1 };
    match Core::start(alloc, Lamp, id, &Bulb { left: 1 }, 0)? {
        Start::Running(lamp, report) => Ok(Some((Box::new(alloc, lamp)?, report))),
        Start::Ignored => Ok(None),
        Start::Stopped(_) => Ok(None),
    }
}

/// Starts a lamp and uses it up.
fn show(alloc: Global, log: &mut String) -> Result<(), Refusal> {
    match started(alloc)? {
        Some((mut lamp, report)) => {
            let used = use_up(&mut lamp, &report, alloc, log);
            drop(report);
            drop(lamp);
            used
        }
        None => Ok(()),
    }
}

/// Shows a lamp, and answers what was written down.
fn run(alloc: Global) -> Result<String, Refusal> {
    let mut log = String::new(alloc);
    show(alloc, &mut log)?;
    Ok(log)
}

fn main(rt: HostRuntime) -> ExitCode {
    match run(rt.alloc()) {
        Ok(log) => match print!(rt; "{log}") {
            Ok(()) => ExitCode::SUCCESS,
            Err(_) => ExitCode::FAILURE,
        },
        Err(refusal) => {
            let _ = eprintln!(rt; "lamp: {refusal}");
            ExitCode::FAILURE
        }
    }
}
