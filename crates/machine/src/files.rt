//! What is read from files and from standard input.

use crate::failure::Failure;
use std::alloc::{AllocError, Global};
use std::fs;
use std::io::{self, ErrorKind, Read};

/// The most bytes that may be read of a file.
const FILE_LIMIT: u64 = 1_048_576;

/// The bytes that a reader has, at most one more than the limit.
fn bytes_of<R: Read + Drop>(alloc: Global, reader: R) -> io::Result<Vec<u8>> {
    let mut bytes = Vec::new(alloc);
    let mut limited = reader.take(FILE_LIMIT + 1);
    limited.read_to_end(&mut bytes)?;
    Ok(bytes)
}

/// The bytes of a file, at most one more than the limit.
pub(crate) fn file_bytes(rt: &HostRuntime, name: &str) -> io::Result<Vec<u8>> {
    bytes_of(rt.alloc(), fs::open(rt, name)?)
}

/// Why the program cannot go on, where something of a name was not read.
fn unread(alloc: Global, name: &str, kind: ErrorKind) -> Failure {
    if kind == ErrorKind::OutOfMemory {
        return Failure::Memory;
    }
    match String::from_str(alloc, name) {
        Ok(name) => Failure::Unread(name),
        Err(AllocError) => Failure::Memory,
    }
}

/// The bytes of a file that is to be there.
pub(crate) fn wanted_bytes(rt: &HostRuntime, name: &str) -> Result<Vec<u8>, Failure> {
    match file_bytes(rt, name) {
        Ok(bytes) => Ok(bytes),
        Err(error) => Err(unread(rt.alloc(), name, error.kind())),
    }
}

/// What was read of something of a name, unless there is more.
fn whole(alloc: Global, name: &str, bytes: Vec<u8>) -> Result<Vec<u8>, Failure> {
    if bytes.len() as u64 <= FILE_LIMIT {
        return Ok(bytes);
    }
    match String::from_str(alloc, name) {
        Ok(name) => Err(Failure::TooLong(name)),
        Err(AllocError) => Err(Failure::Memory),
    }
}

/// The bytes of a file that is to be there and to have no more than may be read.
pub(crate) fn whole_bytes(rt: &HostRuntime, name: &str) -> Result<Vec<u8>, Failure> {
    whole(rt.alloc(), name, wanted_bytes(rt, name)?)
}

/// The bytes of standard input.
pub(crate) fn input_bytes(rt: &HostRuntime) -> Result<Vec<u8>, Failure> {
    match bytes_of(rt.alloc(), rt.stdin()) {
        Ok(bytes) => whole(rt.alloc(), "standard input", bytes),
        Err(error) => Err(unread(rt.alloc(), "standard input", error.kind())),
    }
}
