//! What a host hands in, read from numbers and bytes. Whether it means anything is asked first; then reading it may find
//! no memory, and nothing else.
ghost use Rattle.std.specs.Prelude.{◌≡◌, true, false, IfOk, IfSome, IfNone};
ghost use Rattle.zumelivon.specs.Reading.{is_entry, entry_in, is_within, has_content, payload_in, tag_in, time_in, timer_of, is_kind, kind_in, is_action, is_enter_action, is_reply};

use crate::flat_action::FlatAction;
use st_core::Entry;
use st_embedded::id_of;
use st_events::{Kind, Tag, Time, Timer};
use st_hosted::Payload;
use std::alloc::{AllocError, Global};

/// The way to post an event.
pub(crate) fn entry_of(entry: u32) -> Option<Entry>
    ensures some { IfSome result (λ way. (is_entry entry ≡ true) × (way ≡ entry_in entry)) }
    ensures none { IfNone result (is_entry entry ≡ false) }
{
    match entry {
        0 => Some(Entry::Call),
        1 => Some(Entry::Cast),
        2 => Some(Entry::Info),
        _ => None,
    }
}

pub(crate) fn timer_of(it: &FlatAction) -> Timer
    ensures { result ≡ timer_of it.now }
{
    match it.timer {
        0 => Timer::Event,
        1 => Timer::State,
        _ => Timer::Named(it.name),
    }
}

pub(crate) fn tag_of(it: &FlatAction) -> Tag
    ensures { result ≡ tag_in it.now }
{
    Tag::new(id_of(it.machine), it.request)
}

pub(crate) fn kind_of(it: &FlatAction) -> Kind
    ensures { result ≡ kind_in it.now }
{
    match it.kind {
        0 => Kind::Call(tag_of(it)),
        1 => Kind::Cast,
        2 => Kind::Info,
        3 => Kind::Timeout(timer_of(it)),
        _ => Kind::Internal,
    }
}

pub(crate) fn time_of(it: &FlatAction) -> Time
    ensures { result ≡ time_in it.now }
{
    if it.infinite == 0 {
        Time::After(it.time)
    } else {
        Time::Infinity
    }
}

/// Says whether so many bytes are there from a place on.
pub(crate) fn is_within(bytes: &[u8], from: u64, count: u64) -> bool
    ensures { result ≡ is_within bytes.now from count }
{
    let length = bytes.len() as u64;
    from <= length && count <= length - from
}

/// The content of an action.
pub(crate) fn payload_of(
    alloc: Global,
    it: &FlatAction,
    bytes: &[u8],
) -> Result<Payload, AllocError>
    requires { has_content bytes.now it.now ≡ true }
    ensures { IfOk result (λ payload. payload ≡ payload_in bytes.now it.now) }
{
    let from = it.from as usize;
    Payload::of(alloc, it.code, &bytes[from..from + it.length as usize])
}

fn has_content(it: &FlatAction, bytes: &[u8]) -> bool
    ensures { result ≡ has_content bytes.now it.now }
{
    is_within(bytes, it.from, it.length)
}

fn is_kind(it: &FlatAction) -> bool
    ensures { result ≡ is_kind it.now }
{
    it.kind < 3 || it.kind == 4 || it.kind == 3 && it.timer < 3
}

pub(crate) fn is_action(it: &FlatAction, bytes: &[u8]) -> bool
    ensures { result ≡ is_action bytes.now it.now }
{
    1 <= it.what
        && it.what < 9
        && (it.what == 2 || it.what == 5 || it.what == 8 || has_content(it, bytes))
        && (!(4 <= it.what && it.what <= 6) || it.timer < 3)
        && (it.what != 3 || is_kind(it))
}

pub(crate) fn is_enter_action(it: &FlatAction, bytes: &[u8]) -> bool
    ensures { result ≡ is_enter_action bytes.now it.now }
{
    is_action(it, bytes) && it.what != 2 && it.what != 3 && it.what != 7
}

pub(crate) fn is_reply(it: &FlatAction, bytes: &[u8]) -> bool
    ensures { result ≡ is_reply bytes.now it.now }
{
    it.what == 1 && has_content(it, bytes)
}
