//! Tests of st_directory: what directories answer to calls, with memory and while an allocation is refused.

mod crowd;
mod rows;
mod told;

use super::host::{Host, got, holds, is_count};
use crowd::{names_of_one_hash, names_of_one_kind};
use rows::{
    A_FULL_DIRECTORY, A_MIDDLE_NAME_GOES, AN_ID_IS_GIVEN_ONCE, BY_SLOT, FRONT_IS_LAST,
    NAMES_HAVE_1_TO_64_BYTES, OTHERS_IN_ORDER, THE_FIRST_NAME_GOES,
};
use st_directory::{Directory, MOST, a_directory_is_in_order, a_gone_id_stays_gone};
use std::alloc::AllocError;
use std::io;
use std::random::RandomSource;
use told::{drop_place, fill, ids_are, names_are, names_rise, tell_all};

/// A source of random bytes that has none.
struct Dry;

impl RandomSource for Dry {
    fn fill_bytes(&self, _bytes: &mut [u8]) -> io::Result<()> {
        Err(io::Error::from(io::ErrorKind::Unsupported))
    }
}

/// Says that values of a type may go to another thread, and be read by several.
fn crosses_threads<T: Send + Sync>(_value: &T) {}

#[test]
fn an_id_is_given_once(rt: HostRuntime) {
    let rt = Host::new(rt);
    let mut directory = Directory::new(rt.alloc());
    holds(&rt, "none at first", directory.is_empty());
    tell_all(&rt, &mut directory, AN_ID_IS_GIVEN_ONCE.as_slice());
    is_count(&rt, "how many there are", directory.len(), 2);
    a_directory_is_in_order(&directory);
    a_gone_id_stays_gone(&directory);
    crosses_threads(&directory);
    drop(directory);
    rt.end();
}

#[test]
fn names_have_1_to_64_bytes(rt: HostRuntime) {
    let rt = Host::new(rt);
    let mut directory = Directory::new(rt.alloc());
    tell_all(&rt, &mut directory, NAMES_HAVE_1_TO_64_BYTES.as_slice());
    drop(directory);
    rt.end();
}

#[test]
fn names_stand_in_order_of_registration(rt: HostRuntime) {
    let rt = Host::new(rt);
    let mut directory = Directory::new(rt.alloc());
    tell_all(&rt, &mut directory, A_MIDDLE_NAME_GOES.as_slice());
    drop_place(&rt, &mut directory, "attic");
    names_are(&rt, &directory, OTHERS_IN_ORDER.as_slice());
    ids_are(&rt, rt.alloc(), &directory, BY_SLOT.as_slice());
    tell_all(&rt, &mut directory, THE_FIRST_NAME_GOES.as_slice());
    names_are(&rt, &directory, FRONT_IS_LAST.as_slice());
    drop(directory);
    rt.end();
}

#[test]
fn a_full_directory_takes_no_more(rt: HostRuntime) {
    let rt = Host::new(rt);
    let mut directory = Directory::new(rt.alloc());
    fill(&rt, &mut directory, MOST);
    tell_all(&rt, &mut directory, A_FULL_DIRECTORY.as_slice());
    is_count(&rt, "how many there are", directory.len(), MOST);
    drop(directory);
    rt.end();
}

/// With a table that these names hurt this takes minutes.
#[test]
fn names_of_one_hash_are_found(system: HostRuntime) {
    let rt = Host::with_memory(system);
    let keyed = Directory::new_keyed(&system, rt.alloc());
    let mut directory = got(&rt, "a random key", keyed);
    names_of_one_hash(&rt, &mut directory, MOST);
    is_count(&rt, "how many there are", directory.len(), MOST);
    drop(directory);
    rt.end_with_memory();
}

#[test]
fn a_crowd_of_names_stays_in_order(rt: HostRuntime) {
    let rt = Host::new(rt);
    let mut directory = Directory::new(rt.alloc());
    let found = names_of_one_kind(&rt, &mut directory);
    holds(&rt, "they are a crowd", found > 300);
    is_count(&rt, "how many there are", directory.len(), found);
    names_rise(&rt, &directory);
    drop(directory);
    rt.end();
}

#[test]
fn without_a_random_key_there_is_no_directory(rt: HostRuntime) {
    let rt = Host::new(rt);
    let made: Result<Directory<u32>, AllocError> = Directory::new_keyed(&Dry, rt.alloc());
    holds(&rt, "it is refused", made.is_err());
    drop(made);
    rt.end();
}
