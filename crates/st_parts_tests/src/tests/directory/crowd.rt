//! Names that were chosen to fall together in a table.
use super::rows::Answer;
use super::told::put;
use crate::tests::host::{Host, holds};
use st_directory::{Directory, MachineId};
use std::hash::{DefaultHasher, Hash, Hasher};
use std::process::Abort;
use std::str;

/// A name with room for five digits in it. Where names are hashed as maps hash by their default, the first 16 bytes lead to
/// the next 8 as the hasher's state, and their product is 0, whatever the digits are.
const ONE_HASH: &[u8; 48] = b"door_00008527758pjtwp4j_00000000_one_hash_of_all";

/// The last digit of a number.
fn digit(number: usize) -> u8 {
    b'0' + (number % 10) as u8
}

/// The last five digits of a number.
fn digits(number: usize) -> [u8; 5] {
    [
        digit(number / 10_000),
        digit(number / 1_000),
        digit(number / 100),
        digit(number / 10),
        digit(number),
    ]
}

/// Puts a value in under a name.
fn is_put(rt: &Host<impl Abort>, directory: &mut Directory<u32>, name: &[u8]) {
    let name = str::from_utf8(name).expect(rt, "it is text");
    let answer = put(rt, directory, Some(name), 7);
    holds(rt, "it gets an id", matches!(answer, Answer::Id(_)));
}

/// Looks that a name names the value that was put in at a place.
fn is_named(rt: &impl Abort, directory: &Directory<u32>, name: &[u8], place: usize) {
    let name = str::from_utf8(name).expect(rt, "it is text");
    let serial = (place as u64).saturating_add(1);
    let wanted = MachineId {
        slot: place,
        serial,
    };
    holds(rt, "its id", directory.whereis(name) == Ok(wanted));
}

/// Puts in a value under each of so many names, of which all have one hash where maps hash by their default, and finds each.
pub fn names_of_one_hash(rt: &Host<impl Abort>, directory: &mut Directory<u32>, count: usize) {
    let mut name = *ONE_HASH;
    for number in 0..count {
        name[27..32].copy_from_slice(digits(number).as_slice());
        is_put(rt, directory, name.as_slice());
    }
    for number in 0..count {
        name[27..32].copy_from_slice(digits(number).as_slice());
        is_named(rt, directory, name.as_slice(), number);
    }
}

/// Whether the hash of a name, by the known key, has the kind 7: the 8 bits that a table keeps beside its place.
fn has_the_kind(name: &[u8]) -> bool {
    let Ok(name) = str::from_utf8(name) else {
        return false;
    };
    let mut hasher = DefaultHasher::new();
    name.hash(&mut hasher);
    let hash = hasher.finish();
    (hash >> 24 ^ hash >> 56) % 256 == 7
}

/// Puts in a value under each number of five digits whose kind is 7, some 390, which are a crowd, and finds each. How many
/// there are.
pub fn names_of_one_kind(rt: &Host<impl Abort>, directory: &mut Directory<u32>) -> usize {
    for number in 0..100_000 {
        if has_the_kind(digits(number).as_slice()) {
            is_put(rt, directory, digits(number).as_slice());
        }
    }
    let mut found = 0usize;
    for number in 0..100_000 {
        if has_the_kind(digits(number).as_slice()) {
            is_named(rt, directory, digits(number).as_slice(), found);
            found = found.saturating_add(1);
        }
    }
    found
}
