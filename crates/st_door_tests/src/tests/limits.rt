//! Scripts at their limits and one past them.

use super::host::{Host, holds, same};
use super::streams::{PLAIN, Way, ends, ends_in_memory, prints, shows, with_reserved};
use st_door::{INPUT_LIMIT, Mode, ScriptFault};
use std::alloc::{AllocError, Global};
use std::process::Abort;

#[test]
fn a_line_has_256_bytes_at_most(rt: HostRuntime) {
    let rt = Host::new(rt);
    // A line without words, and a comment.
    for byte in [b' ', b'#'] {
        let line = [byte; 257];
        prints(&rt, rt.alloc(), &line[..256], "", 0);
        prints(&rt, rt.alloc(), &line, "line 1 malformed\n", 1);
    }
    rt.end();
}

#[test]
fn a_carriage_return_is_dropped_before_the_count(rt: HostRuntime) {
    let rt = Host::new(rt);
    let mut line = [b' '; 258];
    line[256] = b'\r';
    prints(&rt, rt.alloc(), &line[..257], "", 0);
    line[257] = b'\n';
    prints(&rt, rt.alloc(), &line, "", 0);
    line[256] = b' ';
    line[257] = b'\r';
    prints(&rt, rt.alloc(), &line, "line 1 malformed\n", 1);
    rt.end();
}

#[test]
fn a_name_has_32_bytes_and_a_code_16_digits_at_most(rt: HostRuntime) {
    let rt = Host::new(rt);
    shows(
        &rt,
        b"new abcdefghijklmnopqrstuvwxyz_-0123 1234567890123456\n\
          new abcdefghijklmnopqrstuvwxyz_-01234 1\n\
          new a 12345678901234567\n",
        "abcdefghijklmnopqrstuvwxyz_-0123 locked buttons 0 waiting 0\n\
         line 2 malformed\n\
         line 3 malformed\n",
        1,
    );
}

#[test]
fn a_reason_has_10_digits_and_is_4294967295_at_most(rt: HostRuntime) {
    let rt = Host::new(rt);
    shows(
        &rt,
        b"new a 1\n\
          new b 1\n\
          new c 1\n\
          stop a 4294967296\n\
          stop a 9999999999\n\
          stop a 00000000007\n\
          stop a 18446744073709551623\n\
          stop a 4294967295\n\
          stop b 0000000007\n\
          stop c 0000000000\n",
        "a locked buttons 0 waiting 0\n\
         b locked buttons 0 waiting 0\n\
         c locked buttons 0 waiting 0\n\
         line 4 malformed\n\
         line 5 malformed\n\
         line 6 malformed\n\
         line 7 malformed\n\
         a stopped 4294967295 word 0\n\
         b stopped 7 word 0\n\
         c stopped 0 word 0\n",
        1,
    );
}

/// Sees that an input is too long.
fn is_too_long(rt: &Host<impl Abort>, alloc: Global, input: &[u8]) {
    let wanted = Err(ScriptFault::TooLong);
    ends(rt, alloc, input, PLAIN, wanted, b"");
    ends_in_memory(rt, alloc, Mode::Run, input, wanted, b"");
}

/// Sees that an input has 1,048,576 bytes at most.
fn has_a_limit(rt: &Host<impl Abort>, alloc: Global) {
    same(rt, "the limit", &INPUT_LIMIT, &1_048_576);
    let mut input = with_reserved(alloc, 1_048_577);
    let resized = input.resize(1_048_577, b'\n');
    holds(rt, "there is memory", resized.is_ok());
    prints(rt, alloc, &input.as_slice()[1..], "", 0);
    is_too_long(rt, alloc, input.as_slice());
    drop(input);
}

#[test]
fn an_input_has_1048576_bytes_at_most(rt: HostRuntime) {
    let rt = Host::new(rt);
    if rt.end() {
        return;
    }
    has_a_limit(&rt, rt.alloc());
}

/// The last of the hexadecimal digits that show a number.
fn last_digit(number: usize) -> u8 {
    b"0123456789abcdef"[number % 16]
}

/// The name of a door, of 65,536 names.
fn name_of(number: usize) -> [u8; 5] {
    [
        b'd',
        last_digit(number / 4096),
        last_digit(number / 256),
        last_digit(number / 16),
        last_digit(number),
    ]
}

/// Adds parts to the end of a list.
fn add(list: &mut Vec<u8>, parts: &[&[u8]]) -> Result<(), AllocError> {
    for part in parts {
        list.extend_from_slice(part)?;
    }
    Ok(())
}

/// A script that grows, and its output.
#[derive(Drop)]
struct Long {
    script: Vec<u8>,
    output: Vec<u8>,
}

impl Long {
    /// A script with no line. Memory is reserved for so many bytes of it, and of its output.
    fn new(alloc: Global, script: usize, output: usize) -> Long {
        Long {
            script: with_reserved(alloc, script),
            output: with_reserved(alloc, output),
        }
    }

    /// Adds a line, and what that prints.
    fn add(&mut self, line: &[&[u8]], printed: &[&[u8]]) -> Result<(), AllocError> {
        add(&mut self.script, line)?;
        add(&mut self.output, printed)
    }

    /// Starts so many doors.
    fn start(&mut self, doors: usize) -> Result<(), AllocError> {
        for number in 0..doors {
            let name = name_of(number);
            let printed = [name.as_slice(), b" locked buttons 0 waiting 0\n"];
            self.add(&[b"new ", &name, b" 1\n"], &printed)?;
        }
        Ok(())
    }

    /// Each door of the ring sends a button to the next, and the last to the first, where so many wait then.
    fn relay(&mut self, waiting: &[u8]) -> Result<(), AllocError> {
        for number in 0..RING {
            let (name, next) = (name_of(number), name_of((number + 1) % RING));
            let printed = [next.as_slice(), b" open buttons 0 waiting ", waiting, b"\n"];
            self.add(&[b"relay ", &name, b" ", &next, b" 1\n"], &printed)?;
        }
        Ok(())
    }

    /// Shows each door of the ring.
    fn show(&mut self) -> Result<(), AllocError> {
        for number in 0..RING {
            let name = name_of(number);
            let printed = [name.as_slice(), b" open buttons 0 waiting 0\n"];
            self.add(&[b"show ", &name, b"\n"], &printed)?;
        }
        Ok(())
    }
}

/// Adds lines that start 65,537 doors.
fn add_many_doors(long: &mut Long) -> Result<(), AllocError> {
    long.start(65_536)?;
    long.add(&[b"new e 1\n"], &[b"line 65537 refused 11\n"])
}

/// How many doors stand in a ring.
const RING: usize = 1_000;

/// Adds lines by which each of many doors sends a button to the next, and the last to the first, twice. The first button opens
/// a door, the second one waits there until it is locked, and opens it again.
fn add_many_relays(long: &mut Long) -> Result<(), AllocError> {
    long.start(RING)?;
    long.relay(b"0")?;
    long.relay(b"1")?;
    long.add(&[b"at 10000\n"], &[b"at 10000 expired 1000\n"])?;
    long.show()
}

/// Sees that a long script prints its output, for so many bytes of which memory is reserved, and has this status.
fn prints_all(rt: &Host<impl Abort>, alloc: Global, long: &Long, reserved: usize, status: u8) {
    let way = Way { reserved, ..PLAIN };
    let (script, output) = (long.script.as_slice(), long.output.as_slice());
    ends(rt, alloc, script, way, Ok(status), output);
}

#[test]
fn a_button_goes_round_1000_doors(rt: HostRuntime) {
    let rt = Host::new(rt);
    if rt.end() {
        return;
    }
    let mut long = Long::new(rt.alloc(), 100_000, 100_000);
    add_many_relays(&mut long).expect(&rt, "memory");
    prints_all(&rt, rt.alloc(), &long, 100_000, 0);
    drop(long);
}

#[test]
fn there_are_65536_doors_at_most(rt: HostRuntime) {
    let rt = Host::new(rt);
    if rt.end() {
        return;
    }
    let mut long = Long::new(rt.alloc(), 1_000_000, 3_000_000);
    add_many_doors(&mut long).expect(&rt, "memory");
    prints_all(&rt, rt.alloc(), &long, 3_000_000, 1);
    drop(long);
}
