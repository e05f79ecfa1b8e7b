//! What is handed out, as numbers.
ghost use Rattle.std.specs.Bool.{OnFalse, OnTrue};
ghost use Rattle.std.specs.Prelude.{◌≡◌, ◌≤◌, ◌<◌, length, true, IfSome, IfNone};
ghost use Rattle.std.specs.Option.{option_map_or};
ghost use Rattle.zumelivon.specs.Showing.{written, flag, timer_number, timer_name, kind_number, timer_in, tag_in, machine_of, request_of, flat_event, done_number, done_reason, done_word, flat_report, flat_report_as, replied_entry, number_entry, set_entry, listed_at, flat_machine, flat_content, flat_message};
ghost use Rattle.std.specs.Prelude.{option_copied};
ghost use Rattle.std.specs.Option.{option_map};

use crate::flat_content::FlatContent;
use crate::flat_event::FlatEvent;
use crate::flat_listed::FlatListed;
use crate::flat_machine::FlatMachine;
use crate::flat_message::FlatMessage;
use crate::flat_report::FlatReport;
use st_answers::{Done, Report};
use st_core::Core;
use st_embedded::Lists;
use st_events::{Decision, Kind, Message, Module, PlainList, Tag, Time, Timer};
use st_hosted::{HostAnswer, Payload};

/// Writes bytes to the first places of a room that is long enough.
pub(crate) fn write(bytes: &[u8], room: &mut [u8])
    requires { length bytes.now ≤ length room.old }
    ensures { room.new ≡ written bytes.now room.old }
{
    room[..bytes.len()].copy_from_slice(bytes);
}

/// Writes the bytes of a content to a room that is long enough.
pub(crate) fn write_content(content: &Payload, room: &mut [u8])
    requires { length content.now.bytes ≤ length room.old }
    ensures { room.new ≡ written content.now.bytes room.old }
{
    write(content.bytes.as_slice(), room);
}

/// Says whether a content has more bytes than a room has places.
pub(crate) fn is_longer(content: &Payload, room: &[u8]) -> bool
    ensures longer { OnTrue result (length room.now < length content.now.bytes) }
    ensures fits { OnFalse result (length content.now.bytes ≤ length room.now) }
{
    content.bytes.len() > room.len()
}

fn timer_number(timer: Timer) -> u32
    ensures { result ≡ timer_number timer }
{
    match timer {
        Timer::Event => 0,
        Timer::State => 1,
        Timer::Named(_) => 2,
    }
}

fn timer_name(timer: Timer) -> u32
    ensures { result ≡ timer_name timer }
{
    match timer {
        Timer::Event | Timer::State => 0,
        Timer::Named(name) => name,
    }
}

fn kind_number(kind: Kind) -> u32
    ensures { result ≡ kind_number kind }
{
    match kind {
        Kind::Call(_) => 0,
        Kind::Cast => 1,
        Kind::Info => 2,
        Kind::Timeout(_) => 3,
        Kind::Internal => 4,
    }
}

fn timer_in(kind: Kind) -> Timer
    ensures { result ≡ timer_in kind }
{
    match kind {
        Kind::Timeout(timer) => timer,
        _ => Timer::Event,
    }
}

fn tag_in(kind: Kind) -> Option<Tag>
    ensures { result ≡ tag_in kind }
{
    match kind {
        Kind::Call(tag) => Some(tag),
        _ => None,
    }
}

fn machine_of(tag: Option<Tag>) -> u64
    ensures { result ≡ machine_of tag }
{
    match tag {
        Some(tag) => tag.machine.serial,
        None => 0,
    }
}

fn request_of(tag: Option<Tag>) -> u64
    ensures { result ≡ request_of tag }
{
    match tag {
        Some(tag) => tag.request,
        None => 0,
    }
}

/// The next event of a machine, if there is one.
pub(crate) fn event_of(
    core: &Core<HostAnswer>,
    number: u64,
    kind: Kind,
    content: &Payload,
) -> FlatEvent
    ensures { result ≡ flat_event core.now (record { number = number; kind = kind; content = content.now }) }
{
    let timer = timer_in(kind);
    let tag = tag_in(kind);
    FlatEvent {
        number,
        kind: kind_number(kind),
        timer: timer_number(timer),
        name: timer_name(timer),
        enters: u32::from(core.module().enters),
        machine: machine_of(tag),
        request: request_of(tag),
        code: content.code,
        length: content.bytes.len() as u64,
        state: core.state(),
        data: *core.data(),
    }
}

fn done_numbers(done: Done) -> (u32, u32, u32)
    ensures { result ≡ (done_number done, done_reason done, done_word done) }
{
    match done {
        Done::Started => (0, 0, 0),
        Done::Finished => (1, 0, 0),
        Done::PutOff => (2, 0, 0),
        Done::Ended(reason, word) => (3, reason, word),
    }
}

/// A report, of its lists the lengths, with what stands for its states.
pub(crate) fn report_as<S>(report: &Report<S>, before: u64, after: u64) -> FlatReport
    ensures { result ≡ flat_report_as before after report.now }
{
    let (event, has_event) = match report.event {
        Some(number) => (number, 1),
        None => (0, 0),
    };
    let (done, reason, word) = done_numbers(report.done);
    FlatReport {
        event,
        has_event,
        done,
        reason,
        word,
        before,
        after,
        calls: report.calls.len() as u64,
        replied: report.replied.len() as u64,
        inserted: report.inserted.len() as u64,
        set: report.set.len() as u64,
        sent: report.sent.len() as u64,
    }
}

/// A report of a hosted machine.
pub(crate) fn report_of(report: &Report<u64>) -> FlatReport
    ensures { result ≡ flat_report report.now }
{
    report_as(report, report.before, report.after)
}

fn replied_entry(tag: Tag) -> FlatListed
    ensures { result ≡ replied_entry tag }
{
    FlatListed {
        machine: tag.machine.serial,
        ..number_entry(tag.request)
    }
}

fn number_entry(number: u64) -> FlatListed
    ensures { result ≡ number_entry number }
{
    FlatListed {
        machine: 0,
        number,
        timer: 0,
        name: 0,
        decision: 0,
        time: 0,
        infinite: 0,
        unused: 0,
    }
}

fn set_entry(timer: Timer, decision: Decision) -> FlatListed
    ensures { result ≡ set_entry (timer, decision) }
{
    let (decision, time, infinite) = match decision {
        Decision::Set(Time::After(time)) => (0, time, 0),
        Decision::Set(Time::Infinity) => (0, 0, 1),
        Decision::Cancel => (1, 0, 0),
        Decision::Update => (2, 0, 0),
    };
    FlatListed {
        timer: timer_number(timer),
        name: timer_name(timer),
        decision,
        time,
        infinite,
        ..number_entry(0)
    }
}

/// The element of a list at an index.
pub(crate) fn listed_at(lists: &Lists, list: u32, index: u64) -> Option<FlatListed>
    ensures { result ≡ listed_at lists.now list index }
{
    let index = index as usize;
    match list {
        0 => {
            let tag = lists.replied.get(index)?;
            Some(replied_entry(*tag))
        }
        1 => {
            let number = lists.inserted.get(index)?;
            Some(number_entry(*number))
        }
        2 => {
            let (timer, decision) = lists.set.get(index)?;
            Some(set_entry(*timer, *decision))
        }
        _ => {
            let number = lists.sent.get(index)?;
            Some(number_entry(*number))
        }
    }
}

/// A machine, with what stands for its state and its data.
pub(crate) fn machine_as<M: Module>(core: &Core<M>, state: u64, data: u64) -> FlatMachine
    ensures { result ≡ flat_machine state «data» core.now }
{
    let (due, has_due) = match core.next_due() {
        Some(due) => (due, 1),
        None => (0, 0),
    };
    let (ended, reason, word) = match core.ended() {
        Some((reason, word)) => (1, reason, word),
        None => (0, 0, 0),
    };
    FlatMachine {
        state,
        data,
        latest: core.latest(),
        waiting: core.waiting() as u64,
        due,
        has_due,
        has_event: u32::from(core.has_event()),
        has_message: u32::from(core.has_message()),
        ended,
        reason,
        word,
    }
}

/// A reply, without its bytes.
pub(crate) fn content_of(content: &Payload) -> FlatContent
    ensures { result ≡ flat_content content.now }
{
    FlatContent {
        code: content.code,
        length: content.bytes.len() as u64,
        reason: 0,
        unused: 0,
    }
}

/// A message, without its bytes.
pub(crate) fn message_of(message: &Message<Payload>) -> FlatMessage
    ensures { result ≡ flat_message message.now }
{
    FlatMessage {
        target: message.target.serial,
        number: message.number,
        code: message.content.code,
        length: message.content.bytes.len() as u64,
    }
}
