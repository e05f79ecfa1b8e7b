//! What a line of the bench does with a machine, whatever its module.
use st_core::{Collected, Core, Done, Entry, MachineId, Module, Refusal, Start, Turned, TurnsEnd};
use std::alloc::Global;

/// Starts a machine, if its module starts one.
pub fn started<M: Module>(
    alloc: Global,
    module: M,
    id: MachineId,
    arg: &M::Arg,
) -> Result<Option<Core<M>>, Refusal> {
    match Core::start(alloc, module, id, arg, 0)? {
        Start::Running(core, _report) => Ok(Some(core)),
        Start::Ignored => Ok(None),
        Start::Stopped(_) => Ok(None),
    }
}

/// One turn, and how many events it handled.
fn turn<M: Module>(core: &mut Core<M>, now: u64) -> Result<u64, Refusal> {
    match core.turn(now)? {
        Turned::Idle => Ok(0),
        Turned::Reported(_) => Ok(1),
    }
}

/// Turns until there is nothing to handle, and how many there were.
pub fn turn_all<M: Module>(core: &mut Core<M>, now: u64) -> Result<u64, Refusal> {
    let turns = core.turn_until_idle(now, u64::MAX);
    match turns.end {
        TurnsEnd::Refused(refusal) => Err(refusal),
        _ => Ok(turns.reported),
    }
}

/// Makes one turn, and says whether it finished the event of this number.
fn finishes<M: Module>(core: &mut Core<M>, number: u64) -> Result<bool, Refusal> {
    match core.turn(0)? {
        Turned::Idle => Ok(false),
        Turned::Reported(report) => {
            Ok(report.event == Some(number) && report.done == Done::Finished)
        }
    }
}

/// Makes so many turns, and counts those that finish the events with the numbers from 1 on.
pub fn finish_in_order<M: Module>(core: &mut Core<M>, count: u32) -> Result<u64, Refusal> {
    let mut finished = 0u64;
    for number in 1..=count {
        if finishes(core, number as u64)? {
            finished = finished.saturating_add(1);
        }
    }
    Ok(finished)
}

/// Makes so many turns, and counts those that finish the events with the even numbers from twice as many down to 2.
pub fn finish_backwards<M: Module>(core: &mut Core<M>, count: u32) -> Result<u64, Refusal> {
    let mut finished = 0u64;
    for place in 0..count {
        if finishes(core, 2 * (count - place) as u64)? {
            finished = finished.saturating_add(1);
        }
    }
    Ok(finished)
}

/// Posts a cast, and makes one turn.
pub fn post_and_turn<M: Module>(
    core: &mut Core<M>,
    content: M::Content,
    now: u64,
) -> Result<u64, Refusal> {
    core.post(Entry::Cast, content)?;
    turn(core, now)
}

/// Posts a cast, makes one turn and takes a message out, so many times, and counts the messages.
pub fn take_out_each<M: Module>(
    core: &mut Core<M>,
    content: M::Content,
    count: u32,
) -> Result<u64, Refusal>
where
    M::Content: Copy,
{
    let mut taken = 0u64;
    for _ in 0..count {
        post_and_turn(core, content, 0)?;
        if core.take_out().is_some() {
            taken = taken.saturating_add(1);
        }
    }
    Ok(taken)
}

/// Posts a cast and makes one turn, so many times.
pub fn post_and_turn_each<M: Module>(
    core: &mut Core<M>,
    content: M::Content,
    count: u32,
) -> Result<u64, Refusal>
where
    M::Content: Copy,
{
    let mut turns = 0u64;
    for _ in 0..count {
        turns = turns.saturating_add(post_and_turn(core, content, 0)?);
    }
    Ok(turns)
}

/// Posts so many casts, and then makes all turns.
pub fn post_all_and_turn<M: Module>(
    core: &mut Core<M>,
    content: M::Content,
    count: u32,
) -> Result<u64, Refusal>
where
    M::Content: Copy,
{
    for _ in 0..count {
        core.post(Entry::Cast, content)?;
    }
    turn_all(core, 0)
}

/// Posts one cast after another, and after each makes all turns, as often as is said.
pub fn cycle<M: Module>(
    core: &mut Core<M>,
    contents: &[M::Content],
    count: u32,
) -> Result<u64, Refusal>
where
    M::Content: Copy,
{
    let mut turns = 0u64;
    for _ in 0..count {
        for content in contents {
            core.post(Entry::Cast, *content)?;
            turns = turns.saturating_add(turn_all(core, 0)?);
        }
    }
    Ok(turns)
}

/// Calls, makes one turn and collects the reply; answers 1 where it came.
fn call<M: Module>(core: &mut Core<M>, content: M::Content) -> Result<u64, Refusal> {
    let number = core.post(Entry::Call, content)?;
    turn(core, 0)?;
    let tag = core.tag(number);
    match core.collect(tag) {
        Collected::Reply(_) => Ok(1),
        _ => Ok(0),
    }
}

/// Calls so many times, and answers how many replies came.
pub fn call_each<M: Module>(
    core: &mut Core<M>,
    content: M::Content,
    count: u32,
) -> Result<u64, Refusal>
where
    M::Content: Copy,
{
    let mut replies = 0u64;
    for _ in 0..count {
        replies = replies.saturating_add(call(core, content)?);
    }
    Ok(replies)
}

/// Sets a timer for a millisecond, lets it pass and handles the time-out, so many times.
pub fn expire_each<M: Module>(
    core: &mut Core<M>,
    setting: M::Content,
    count: u32,
) -> Result<u64, Refusal>
where
    M::Content: Copy,
{
    let mut turns = 0u64;
    for now in 0..count {
        turns = turns.saturating_add(post_and_turn(core, setting, now as u64)?);
        let later = now as u64 + 1;
        core.tick_to(later)?;
        turns = turns.saturating_add(turn_all(core, later)?);
    }
    Ok(turns)
}

/// Posts a cast to each machine and makes one turn of it.
pub fn turn_each<M: Module>(machines: &mut [Core<M>], content: M::Content) -> Result<u64, Refusal>
where
    M::Content: Copy,
{
    let mut turns = 0u64;
    for core in machines {
        turns = turns.saturating_add(post_and_turn(core, content, 0)?);
    }
    Ok(turns)
}
