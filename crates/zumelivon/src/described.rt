//! Calls of described machines.
ghost use Rattle.std.specs.Prelude.{◌≡◌, ◌≢◌, ◌<◌, ◌≤◌, None, Some, length, slice_get, IfOk, IfSome, IfNone};
ghost use Rattle.std.specs.Bool.{OnFalse, OnTrue};
ghost use Rattle.st_core.specs.Replies.{peek_of};
ghost use Rattle.st_table.specs.declared.signal.Signal.{Signal};
ghost use Rattle.zumelivon.specs.Calls.{CollectsSignal, PostsSignal, RunsDescribed, StartsDescribed, TakesSignal, WhyNoBegin, end_number, is_left, tag_of};
ghost use Rattle.zumelivon.specs.Signals.{IsOf, bytes_in, flat_signal};

use crate::codes::{
    DONE, ENDED, GONE, IGNORED, INVALID, NO_MEMORY, NO_SUCH_DESCRIPTION, NO_SUCH_MACHINE, NOTHING,
    STOPPED, TOO_SMALL,
};
use crate::flat_report::FlatReport;
use crate::flat_signal::FlatSignal;
use crate::posting::number_of;
use crate::reading::entry_of;
use crate::showing::{report_as, write};
use crate::signals::{bytes_of, flat_signal, has_value, signal_of, values_of};
use st_core::{Core, TurnsEnd};
use st_embedded::{
    Begun, Lists, Machines, collect_at, post_at, run_at, start_described, take_out_at,
};
use st_requests::Collected;
use st_table::Interpreter;
use std::alloc::{AllocError, Global};

/// The callback module of a description.
fn interpreter(all: &Machines, description: u64) -> Result<Option<Interpreter>, AllocError>
    ensures some { IfOk result (λ found. IfSome found (IsOf all.now description)) }
    ensures none { IfOk result (λ found. IfNone found (slice_get all.now.charts.items description ≡ None)) }
{
    match all.charts.get(description as usize) {
        Some(chart) => {
            let table = chart.table.clone()?;
            Ok(Some(Interpreter { table }))
        }
        None => Ok(None),
    }
}

pub(crate) fn start(
    alloc: Global,
    all: &mut Machines,
    description: u64,
    now: u64,
    values: &[FlatSignal],
    bytes: &[u8],
    id: &mut u64,
    report: &mut FlatReport,
) -> u32
    ensures does { StartsDescribed description now values.now bytes.now result id.old id.new report.old report.new all.old all.new }
    ensures why { WhyNoBegin description now values.now bytes.now result all.old }
    ensures not_closed { result ≢ 105 }
{
    let interpreter = match interpreter(all, description) {
        Ok(Some(interpreter)) => interpreter,
        Ok(None) => return NO_SUCH_DESCRIPTION,
        Err(_) => return NO_MEMORY,
    };
    let values = match values_of(alloc, values, bytes) {
        Ok(Some(values)) => values,
        Ok(None) => return INVALID,
        Err(_) => return NO_MEMORY,
    };
    match start_described(all, interpreter, &values, now) {
        Ok(Begun::Running(number, reported)) => {
            *id = number;
            let before = u64::from(reported.before.number);
            let after = u64::from(reported.after.number);
            *report = report_as(&reported, before, after);
            all.lists = Lists::of(reported);
            DONE
        }
        Ok(Begun::Ignored) => IGNORED,
        Ok(Begun::Stopped(reason)) => {
            report.reason = reason;
            STOPPED
        }
        Err(refusal) => number_of(refusal),
    }
}

pub(crate) fn post(
    alloc: Global,
    all: &mut Machines,
    id: u64,
    entry: u32,
    signal: &FlatSignal,
    bytes: &[u8],
    number: &mut u64,
) -> u32
    ensures does { PostsSignal id entry signal.now bytes.now result number.old number.new all.old all.new }
    ensures not_closed { result ≢ 105 }
{
    let Some(entry) = entry_of(entry) else {
        return INVALID;
    };
    if !has_value(signal, bytes) {
        return INVALID;
    }
    let Ok(content) = signal_of(alloc, signal, bytes) else {
        return NO_MEMORY;
    };
    match post_at(&mut all.described, id, entry, content) {
        Ok(posted) => {
            *number = posted;
            DONE
        }
        Err(refused) => number_of(refused.refusal),
    }
}

/// What a run answers where its machine had not ended.
fn end_number(end: TurnsEnd) -> u32
    ensures number { result ≡ end_number end }
    ensures not_closed { result ≢ 105 }
{
    match end {
        TurnsEnd::Refused(refusal) => number_of(refusal),
        _ => DONE,
    }
}

/// Says whether an event is left where turns have come to this.
fn is_left(end: TurnsEnd) -> bool
    ensures { result ≡ is_left end }
{
    match end {
        TurnsEnd::AtMost | TurnsEnd::Refused(_) => true,
        _ => false,
    }
}

pub(crate) fn run(
    all: &mut Machines,
    id: u64,
    now: u64,
    at_most: u64,
    turns: &mut u64,
    more: &mut u32,
) -> u32
    ensures does { RunsDescribed id now at_most result turns.old turns.new more.old more.new all.old all.new }
    ensures not_closed { result ≢ 105 }
{
    let Some(core) = all.described.get(&id) else {
        return NO_SUCH_MACHINE;
    };
    if core.ended().is_some() {
        return ENDED;
    }
    let Some(made) = run_at(&mut all.described, id, now, at_most) else {
        return NO_SUCH_MACHINE;
    };
    *turns = made.reported;
    *more = u32::from(is_left(made.end));
    end_number(made.end)
}

/// Says whether the reply to a call has more bytes than a room has places; then it is shown without its bytes.
fn is_too_long(core: &Core<Interpreter>, number: u64, signal: &mut FlatSignal, room: &[u8]) -> bool
    ensures longer { OnTrue result ((reply : Signal) × (peek_of core.now.machine (tag_of core.now number) ≡ Some reply) × (signal.new ≡ flat_signal reply) × (length room.now < length (bytes_in reply))) }
    ensures fits { OnFalse result ((reply : Signal) → peek_of core.now.machine (tag_of core.now number) ≡ Some reply → length (bytes_in reply) ≤ length room.now) }
    ensures kept { OnFalse result (signal.new ≡ signal.old) }
{
    match core.peek(core.tag(number)) {
        Some(reply) => {
            if bytes_of(reply).len() <= room.len() {
                return false;
            }
            *signal = flat_signal(reply);
            true
        }
        None => false,
    }
}

pub(crate) fn collect(
    all: &mut Machines,
    id: u64,
    number: u64,
    signal: &mut FlatSignal,
    reason: &mut u32,
    room: &mut [u8],
) -> u32
    ensures does { CollectsSignal id number result signal.old signal.new reason.old reason.new room.old room.new all.old all.new }
    ensures not_closed { result ≢ 105 }
{
    let Some(core) = all.described.get(&id) else {
        return NO_SUCH_MACHINE;
    };
    if is_too_long(core, number, signal, room) {
        return TOO_SMALL;
    }
    match collect_at(&mut all.described, id, number) {
        None => NO_SUCH_MACHINE,
        Some(Collected::Waiting) => NOTHING,
        Some(Collected::Gone) => GONE,
        Some(Collected::Stopped(why)) => {
            *reason = why;
            STOPPED
        }
        Some(Collected::Reply(reply)) => {
            *signal = flat_signal(&reply);
            write(bytes_of(&reply), room);
            DONE
        }
    }
}

pub(crate) fn take_out(
    all: &mut Machines,
    id: u64,
    signal: &mut FlatSignal,
    target: &mut u64,
    number: &mut u64,
    room: &mut [u8],
) -> u32
    ensures does { TakesSignal id result signal.old signal.new target.old target.new number.old number.new room.old room.new all.old all.new }
    ensures not_closed { result ≢ 105 }
{
    let Some(core) = all.described.get(&id) else {
        return NO_SUCH_MACHINE;
    };
    match core.first_message() {
        None => return NOTHING,
        Some(message) => {
            if bytes_of(&message.content).len() > room.len() {
                *signal = flat_signal(&message.content);
                return TOO_SMALL;
            }
        }
    }
    match take_out_at(&mut all.described, id) {
        Some(Some(message)) => {
            *signal = flat_signal(&message.content);
            *target = message.target.serial;
            *number = message.number;
            write(bytes_of(&message.content), room);
            DONE
        }
        Some(None) => NOTHING,
        None => NO_SUCH_MACHINE,
    }
}
