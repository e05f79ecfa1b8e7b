//! What a service makes of its machines.
ghost use Rattle.std.specs.Prelude.{◌≤◌};

use crate::load::{Load, Work};
use st_core::Refusal;
use st_pool::Runtime;
use st_service::{Called, Journals, Nobody, Options, Service, ServicePort, Spawned};
use std::alloc::Global;
use std::random::RandomSource;
use std::rt::Clock;

/// A service of the machines that are measured.
type Services<R> = Service<Load, R, Nobody>;

/// A port of such a machine.
type Ports<R> = ServicePort<Load, R, Nobody>;

/// A service of so many workers, whose machines keep so many entries, or no journal where that is none.
fn service<R: Runtime + Clock + RandomSource>(
    rt: R,
    alloc: Global,
    workers: usize,
    entries: u32,
) -> Result<Services<R>, Refusal>
    requires { (1 ≤ workers) × (workers ≤ 16) }
{
    let journals = match entries {
        0 => Journals::None,
        entries => Journals::AtMost(entries as usize),
    };
    let options = Options {
        waiting: usize::MAX,
        journals,
        turns: 0,
    };
    Ok(Service::start(rt, alloc, workers, options, Nobody)?)
}

/// Starts a machine, and answers its port.
fn spawned<R: Runtime + Clock>(services: &Services<R>) -> Result<Ports<R>, Refusal> {
    match services.spawn(None, Load, &0).ok() {
        Some(Spawned::Running(_, port)) => port.ok_or(Refusal::NoMemory),
        Some(Spawned::Ignored) => Err(Refusal::NoMemory),
        Some(Spawned::Stopped(_)) => Err(Refusal::NoMemory),
        None => Err(Refusal::NoMemory),
    }
}

/// Casts once.
fn casts<R: Runtime + Clock>(port: &mut Ports<R>, work: Work) -> Result<(), Refusal> {
    match port.cast(work) {
        Ok(_) => Ok(()),
        Err(_) => Err(Refusal::NoMemory),
    }
}

/// Calls once. Answers 1 where a reply came.
fn calls<R: Runtime + Clock>(port: &mut Ports<R>) -> Result<u64, Refusal> {
    match port.call(Work::Answer) {
        Ok(called) => Ok(u64::from(matches!(called, Called::Reply(_)))),
        Err(_) => Err(Refusal::NoMemory),
    }
}

/// Casts so many times, and then calls once. Answers 1 where a reply came.
fn cast_and_call<R: Runtime + Clock>(port: &mut Ports<R>, count: u32) -> Result<u64, Refusal> {
    for _ in 0..count {
        casts(port, Work::Keep)?;
    }
    calls(port)
}

/// Calls so many times, and answers how many replies came.
fn call_each<R: Runtime + Clock>(port: &mut Ports<R>, count: u32) -> Result<u64, Refusal> {
    let mut replies = 0u64;
    for _ in 0..count {
        replies = replies.saturating_add(calls(port)?);
    }
    Ok(replies)
}

/// Starts a machine, casts so many times to it, and then calls it. Answers 1 where a reply came.
fn cast_to_one<R: Runtime + Clock>(services: &Services<R>, count: u32) -> Result<u64, Refusal> {
    let mut port = spawned(services)?;
    let replied = cast_and_call(&mut port, count);
    drop(port);
    replied
}

/// Starts a machine, and calls it so many times. Answers how many replies came.
fn call_one<R: Runtime + Clock>(services: &Services<R>, count: u32) -> Result<u64, Refusal> {
    let mut port = spawned(services)?;
    let replied = call_each(&mut port, count);
    drop(port);
    replied
}

/// Casts so many times to a machine that one worker serves, and then calls it. Answers whether it replied.
pub fn cast_to_service<R: Runtime + Clock + RandomSource>(
    rt: R,
    alloc: Global,
    count: u32,
    entries: u32,
) -> Result<u64, Refusal> {
    let services = service(rt, alloc, 1, entries)?;
    let replied = cast_to_one(&services, count);
    drop(services);
    replied
}

/// Calls so many times a machine that one worker serves, and answers how many replies came.
pub fn call_to_service<R: Runtime + Clock + RandomSource>(
    rt: R,
    alloc: Global,
    count: u32,
    entries: u32,
) -> Result<u64, Refusal> {
    let services = service(rt, alloc, 1, entries)?;
    let replied = call_one(&services, count);
    drop(services);
    replied
}

/// Starts so many machines, and puts a port of each behind the others.
fn fill<R: Runtime + Clock>(
    services: &Services<R>,
    ports: &mut Vec<Ports<R>>,
    many: u32,
) -> Result<(), Refusal> {
    for _ in 0..many {
        ports.push(spawned(services)?)?;
    }
    Ok(())
}

/// Casts once through each port: its machine is to insert so many events.
fn insert_each<R: Runtime + Clock>(ports: &mut Vec<Ports<R>>, count: u32) -> Result<(), Refusal> {
    for port in ports.iter_mut() {
        casts(port, Work::InsertMany(count))?;
    }
    Ok(())
}

/// Calls once through the last port, and lets it go. Answers 1 where a reply came.
fn call_last<R: Runtime + Clock>(ports: &mut Vec<Ports<R>>) -> Result<u64, Refusal> {
    match ports.pop() {
        Some(mut port) => {
            let replied = calls(&mut port);
            drop(port);
            replied
        }
        None => Ok(0),
    }
}

/// Has each of so many machines insert so many events, and then calls each. Answers how many replies came.
fn insert_and_call<R: Runtime + Clock>(
    ports: &mut Vec<Ports<R>>,
    count: u32,
    many: u32,
) -> Result<u64, Refusal> {
    insert_each(ports, count)?;
    // From the last on, which is served last: so the caller sleeps before one reply and not before each.
    let mut replies = 0u64;
    for _ in 0..many {
        replies = replies.saturating_add(call_last(ports)?);
    }
    Ok(replies)
}

/// So many workers serve so many machines without a journal, each of which handles an event that inserts so many others, those, and then a call.
/// It answers how many replies came.
pub fn insert_in_service<R: Runtime + Clock + RandomSource>(
    rt: R,
    alloc: Global,
    workers: usize,
    count: u32,
    many: u32,
) -> Result<u64, Refusal>
    requires { (1 ≤ workers) × (workers ≤ 16) }
{
    let services = service(rt, alloc, workers, 0)?;
    let mut ports = Vec::new(alloc);
    let replied = match fill(&services, &mut ports, many) {
        Ok(()) => insert_and_call(&mut ports, count, many),
        Err(refusal) => Err(refusal),
    };
    drop(ports);
    drop(services);
    replied
}
