//! Signals, read and shown as numbers and bytes.
ghost use Rattle.std.specs.Prelude.{◌≡◌, ◌+◌, true, map, slice_range, IfOk, IfSome, IfNone};
ghost use Rattle.std.specs.Bool.{OnFalse, OnTrue};
ghost use Rattle.std.specs.Str.{IsUtf8};
ghost use Rattle.zumelivon.specs.Reading.{is_within};
ghost use Rattle.zumelivon.specs.Signals.{HasValue, OneHasNoValue, bytes_in, flat_signal, number_in, request_in, signal_in, text_in, value_in, what_of};

use crate::flat_signal::FlatSignal;
use crate::reading::is_within;
use st_embedded::id_of;
use st_events::{PlainList, PlainText, Tag};
use st_table::{Signal, Value};
use std::alloc::{AllocError, Global};
use std::str::from_utf8;

/// The text of a signal: none where its bytes are not there, or are no UTF-8.
fn text_of<'a>(it: &FlatSignal, bytes: &'a [u8]) -> Option<&'a str>
    ensures text { IfSome result (λ text. (text.now ≡ text_in bytes.now it.now) × (is_within bytes.now it.now.from it.now.length ≡ true) × IsUtf8 (text_in bytes.now it.now)) }
    ensures none { IfNone result ((is_within bytes.now it.now.from it.now.length ≡ true) → IsUtf8 (text_in bytes.now it.now) → ⊥) }
{
    if !is_within(bytes, it.from, it.length) {
        return None;
    }
    let from = it.from as usize;
    match from_utf8(&bytes[from..from + it.length as usize]) {
        Ok(text) => Some(text),
        Err(_) => None,
    }
}

/// Says whether a signal has a value.
pub(crate) fn has_value(it: &FlatSignal, bytes: &[u8]) -> bool
    ensures has { OnTrue result (HasValue bytes.now it.now) }
    ensures has_not { OnFalse result (HasValue bytes.now it.now → ⊥) }
{
    it.what < 4 || it.what == 4 && text_of(it, bytes).is_some()
}

/// The value of a signal.
fn value_of(alloc: Global, it: &FlatSignal, bytes: &[u8]) -> Result<Value, AllocError>
    requires { HasValue bytes.now it.now }
    ensures { IfOk result (λ read. read ≡ value_in bytes.now it.now) }
{
    match it.what {
        1 => Ok(Value::Number(it.number)),
        2 => Ok(Value::Call(Tag::new(id_of(it.number), it.request))),
        3 => Ok(Value::Machine(id_of(it.number))),
        4 => match text_of(it, bytes) {
            Some(text) => Ok(Value::Text(PlainText::copied(alloc, text)?)),
            None => unreachable!(),
        },
        _ => Ok(Value::Nothing),
    }
}

/// The signal.
pub(crate) fn signal_of(alloc: Global, it: &FlatSignal, bytes: &[u8]) -> Result<Signal, AllocError>
    requires { HasValue bytes.now it.now }
    ensures { IfOk result (λ read. read ≡ signal_in bytes.now it.now) }
{
    Ok(Signal {
        symbol: it.symbol,
        argument: value_of(alloc, it, bytes)?,
    })
}

/// The values of signals: none where one has no value. It may find no memory.
pub(crate) fn values_of(
    alloc: Global,
    signals: &[FlatSignal],
    bytes: &[u8],
) -> Result<Option<PlainList<Value>>, AllocError>
    ensures values { IfOk result (λ read. IfSome read (λ values. values ≡ map (value_in bytes.now) signals.now)) }
    ensures none { IfOk result (λ read. IfNone read (OneHasNoValue bytes.now signals.now)) }
{
    let mut values = PlainList::new(alloc);
    for it in signals {
        if !has_value(it, bytes) {
            return Ok(None);
        }
        values.push(value_of(alloc, it, bytes)?)?;
    }
    Ok(Some(values))
}

/// The bytes of a signal's text; of another value none.
pub(crate) fn bytes_of(signal: &Signal) -> &[u8]
    ensures { result.now ≡ bytes_in signal.now }
{
    match &signal.argument {
        Value::Text(text) => text.as_str().as_bytes(),
        _ => &[],
    }
}

/// A signal, without its bytes.
pub(crate) fn flat_signal(signal: &Signal) -> FlatSignal
    ensures { result ≡ flat_signal signal.now }
{
    let (what, number, request) = match &signal.argument {
        Value::Nothing => (0, 0, 0),
        Value::Number(number) => (1, *number, 0),
        Value::Call(tag) => (2, tag.machine.serial, tag.request),
        Value::Machine(id) => (3, id.serial, 0),
        Value::Text(_) => (4, 0, 0),
    };
    FlatSignal {
        symbol: signal.symbol,
        what,
        number,
        request,
        from: 0,
        length: bytes_of(signal).len() as u64,
    }
}
