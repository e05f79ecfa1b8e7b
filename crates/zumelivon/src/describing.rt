//! Descriptions, and their names.
ghost use Rattle.std.specs.Prelude.{◌≡◌, ◌≢◌, false, nat_lt, option_copied, slice_get, IfNone};
ghost use Rattle.zumelivon.specs.Calls.{Describes, WhyNoName};

use crate::codes::{
    DONE, FAULTY, INVALID, NO_MEMORY, NO_SUCH_DESCRIPTION, NO_SUCH_NAME, TOO_SMALL,
};
use crate::showing::write;
use st_chart::{Chart, Fault, Names, Unread, read_chart};
use st_embedded::Machines;
use st_events::PlainList;
use std::alloc::{AllocError, Global};
use std::fmt::Write;
use std::str::from_utf8;

/// The faults as a text, one a line: the line, the column and the words.
fn faults_text(alloc: Global, faults: &PlainList<Fault>) -> Result<String, AllocError> {
    let mut text = String::new(alloc);
    for fault in faults.as_slice() {
        if write!(
            text,
            "{}:{}: {}\n",
            fault.line,
            fault.column,
            fault.text.as_str()
        )
        .is_err()
        {
            return Err(AllocError);
        }
    }
    Ok(text)
}

/// Writes as many bytes as there is room for, and how many there are.
fn write_some(bytes: &[u8], room: &mut [u8], length: &mut u64) {
    *length = bytes.len() as u64;
    let count = bytes.len().min(room.len());
    write(&bytes[..count], room);
}

fn keep(all: &mut Machines, chart: Chart, description: &mut u64) -> u32
    ensures does { Describes result description.old description.new all.old all.new }
    ensures not_closed { result ≢ 105 }
{
    let number = all.charts.len() as u64;
    let Ok(()) = all.charts.push(chart) else {
        return NO_MEMORY;
    };
    *description = number;
    DONE
}

pub(crate) fn describe(
    alloc: Global,
    all: &mut Machines,
    text: &[u8],
    description: &mut u64,
    room: &mut [u8],
    length: &mut u64,
) -> u32
    ensures does { Describes result description.old description.new all.old all.new }
    ensures not_closed { result ≢ 105 }
    ensures told { result ≢ 111 → (room.new ≡ room.old) × (length.new ≡ length.old) }
{
    match read_chart(alloc, text) {
        Ok(chart) => keep(all, chart, description),
        Err(Unread::Memory) => NO_MEMORY,
        Err(Unread::Faults(faults)) => match faults_text(alloc, &faults) {
            Ok(text) => {
                write_some(text.as_bytes(), room, length);
                FAULTY
            }
            Err(_) => NO_MEMORY,
        },
    }
}

fn chart_at(all: &Machines, description: u64) -> Option<&Chart>
    ensures { option_copied result ≡ slice_get all.now.charts.items description }
{
    all.charts.get(description as usize)
}

fn names_of(chart: &Chart, kind: u32) -> Option<&Names>
    ensures { IfNone result (nat_lt kind 3 ≡ false) }
{
    match kind {
        0 => Some(&chart.names.symbols),
        1 => Some(&chart.names.states),
        2 => Some(&chart.names.timers),
        _ => None,
    }
}

fn find(names: &Names, name: &[u8]) -> Option<u32> {
    let name = from_utf8(name).ok()?;
    names.find(name)
}

pub(crate) fn number_of_name(
    all: &Machines,
    description: u64,
    kind: u32,
    name: &[u8],
    number: &mut u64,
) -> u32
    ensures why { WhyNoName description kind result all.now }
    ensures refused { result ≢ 0 → number.new ≡ number.old }
    ensures not_closed { result ≢ 105 }
{
    let Some(chart) = chart_at(all, description) else {
        return NO_SUCH_DESCRIPTION;
    };
    let Some(names) = names_of(chart, kind) else {
        return INVALID;
    };
    match find(names, name) {
        Some(found) => {
            *number = u64::from(found);
            DONE
        }
        None => NO_SUCH_NAME,
    }
}

pub(crate) fn name_of_number(
    all: &Machines,
    description: u64,
    kind: u32,
    number: u64,
    room: &mut [u8],
    length: &mut u64,
) -> u32
    ensures why { WhyNoName description kind result all.now }
    ensures refused { result ≢ 0 → room.new ≡ room.old }
    ensures not_closed { result ≢ 105 }
    ensures length { result ≢ 0 → result ≢ 102 → length.new ≡ length.old }
{
    let Some(chart) = chart_at(all, description) else {
        return NO_SUCH_DESCRIPTION;
    };
    let Some(names) = names_of(chart, kind) else {
        return INVALID;
    };
    let Ok(short) = u32::try_from(number) else {
        return NO_SUCH_NAME;
    };
    if short as usize >= names.len() {
        return NO_SUCH_NAME;
    }
    let name = names.name(short).as_bytes();
    *length = name.len() as u64;
    if name.len() > room.len() {
        return TOO_SMALL;
    }
    write(name, room);
    DONE
}
