//! Calls of a directory: where one finds no memory, the directory is looked at, and the call is made again.
use super::rows::{Answer, Call, Row};
use crate::tests::host::{Host, holds, is_count, same};
use st_directory::{
    Directory, MachineId, Refusal, a_new_id_was_no_id_before, an_inserted_value_is_found,
};
use std::alloc::Global;
use std::process::Abort;

/// What can be read of a directory of few values: how many there are, its first names by their first bytes, and the
/// values of the ids of the first slots and serials.
#[derive(Clone, Copy, PartialEq, Eq)]
struct Reading {
    len: usize,
    names: [Option<(Option<u8>, MachineId)>; 4],
    values: [[Option<u32>; 5]; 4],
}

/// Reads a directory.
fn read(directory: &Directory<u32>) -> Reading {
    let mut names = [None; 4];
    for (seen, (name, id)) in names.iter_mut().zip(directory.names()) {
        *seen = Some((name.as_bytes().first().copied(), *id));
    }
    let mut values = [[None; 5]; 4];
    for (slot, of_slot) in values.iter_mut().enumerate() {
        for (serial, seen) in (1..=5).zip(of_slot.iter_mut()) {
            *seen = directory.get(MachineId { slot, serial }).ok().copied();
        }
    }
    Reading {
        len: directory.len(),
        names,
        values,
    }
}

/// A place cannot be prepared for want of memory: nothing that can be read has changed.
fn finds_no_memory(
    rt: &Host<impl Abort>,
    directory: &Directory<u32>,
    before: &Reading,
    refusal: Refusal,
) {
    holds(rt, "memory is wanted", refusal == Refusal::NoMemory);
    let after = read(directory) == *before;
    holds(rt, "a refused call changes nothing", after);
    rt.retry();
}

/// Puts a value in, under a name if there is one. Where there is no memory, nothing that can be read has changed, and
/// the call is made again.
pub fn put(
    rt: &Host<impl Abort>,
    directory: &mut Directory<u32>,
    name: Option<&str>,
    value: u32,
) -> Answer {
    if let Err(refusal) = directory.admits(name) {
        return Answer::Refused(refusal);
    }
    let before = read(directory);
    let mut prepared = directory.prepare(name);
    if let Err(refusal) = prepared {
        finds_no_memory(rt, directory, &before, refusal);
        prepared = directory.prepare(name);
    }
    let place = match prepared {
        Ok(place) => place,
        Err(refusal) => return Answer::Refused(refusal),
    };
    a_new_id_was_no_id_before(directory, &place);
    an_inserted_value_is_found(directory, &place);
    let id = place.id();
    directory.insert(place, value);
    Answer::Id(id)
}

/// The answer of a call that finds an id.
fn id_or_refused(found: Result<MachineId, Refusal>) -> Answer {
    match found {
        Ok(id) => Answer::Id(id),
        Err(refusal) => Answer::Refused(refusal),
    }
}

/// The answer of a call that finds a value.
fn value_or_refused(found: Result<u32, Refusal>) -> Answer {
    match found {
        Ok(value) => Answer::Value(value),
        Err(refusal) => Answer::Refused(refusal),
    }
}

/// Makes a call.
fn tell(rt: &Host<impl Abort>, directory: &mut Directory<u32>, call: Call) -> Answer {
    match call {
        Call::Put(name, value) => put(rt, directory, name, value),
        Call::Get(id) => value_or_refused(directory.get(id).copied()),
        Call::Whereis(name) => id_or_refused(directory.whereis(name)),
        Call::Unregister(name) => id_or_refused(directory.unregister(name)),
        Call::Remove(id) => value_or_refused(directory.remove(id)),
    }
}

/// Makes calls one after another, and looks at their answers.
pub fn tell_all(rt: &Host<impl Abort>, directory: &mut Directory<u32>, rows: &[Row]) {
    for (call, wanted) in rows {
        same(rt, "the answer", &tell(rt, directory, *call), wanted);
    }
}

/// Prepares a place under a name, and lets it go: nothing that can be read has changed.
pub fn drop_place(rt: &Host<impl Abort>, directory: &mut Directory<u32>, name: &str) {
    let before = read(directory);
    let admitted = directory.admits(Some(name)).is_ok();
    holds(rt, "it may come in", admitted);
    match directory.prepare(Some(name)) {
        Ok(place) => drop(place),
        Err(refusal) => {
            holds(rt, "memory is wanted", refusal == Refusal::NoMemory);
            rt.retry();
        }
    }
    let after = read(directory) == before;
    holds(rt, "a place changes nothing", after);
}

/// Puts so many values in, each under no name.
pub fn fill(rt: &Host<impl Abort>, directory: &mut Directory<u32>, count: usize) {
    for _ in 0..count {
        let answer = put(rt, directory, None, 7);
        holds(rt, "it gets an id", matches!(answer, Answer::Id(_)));
    }
}

/// Looks at a name and the id that it names.
fn name_is(rt: &Host<impl Abort>, name: &str, id: &MachineId, wanted: &(&str, MachineId)) {
    same(rt, "the name", &name, &wanted.0);
    same(rt, "its id", id, &wanted.1);
}

/// Looks at the names, in order of registration.
pub fn names_are(rt: &Host<impl Abort>, directory: &Directory<u32>, wanted: &[(&str, MachineId)]) {
    is_count(rt, "how many names", directory.names().len(), wanted.len());
    for ((name, id), wanted) in directory.names().zip(wanted) {
        name_is(rt, name.as_str(), id, wanted);
    }
}

/// Looks at the ids, by rising slot. Where there is no memory, they are asked for again.
pub fn ids_are(
    rt: &Host<impl Abort>,
    alloc: Global,
    directory: &Directory<u32>,
    wanted: &[MachineId],
) {
    let ids = match directory.ids(alloc) {
        Ok(ids) => ids,
        Err(_) => {
            rt.retry();
            let again = directory.ids(alloc);
            again.expect(rt, "one allocation alone is refused")
        }
    };
    holds(rt, "the ids", ids.as_slice() == wanted);
    drop(ids);
}

/// Looks that the names stand in order of registration: each has a later serial than the one before it.
pub fn names_rise(rt: &Host<impl Abort>, directory: &Directory<u32>) {
    let mut last = 0;
    for (_name, id) in directory.names() {
        holds(rt, "the order of the names", id.serial > last);
        last = id.serial;
    }
}
