//! A script of which much waits at once.
use super::pool_streams::with_reserved;
use std::alloc::{AllocError, Global};

/// How many buttons wait at each door.
const BUTTONS: usize = 200;

/// A line for each of two doors, so often.
fn add(script: &mut Vec<u8>, lines: &[u8], times: usize) -> Result<(), AllocError> {
    for _ in 0..times {
        script.extend_from_slice(lines)?;
    }
    Ok(())
}

/// How many lines are drawn.
const DRAWN: usize = 2_000;

/// Adds parts to the end of a script.
fn add_parts(script: &mut Vec<u8>, parts: &[&[u8]]) -> Result<(), AllocError> {
    for part in parts {
        script.extend_from_slice(part)?;
    }
    Ok(())
}

/// The name of one of five doors, as a number draws it.
fn drawn_name(number: u64) -> [u8; 1] {
    [b"cdefg"[(number % 5) as usize]]
}

/// A line that starts a door, stops it, removes it or asks it.
fn add_about(script: &mut Vec<u8>, kind: u64, name: &[u8], digit: &[u8]) -> Result<(), AllocError> {
    match kind {
        0 | 1 => add_parts(script, &[b"new ", name, b" 1", digit, b"\n"]),
        2 => add_parts(script, &[b"stop ", name, b" ", digit, b"\n"]),
        3 => add_parts(script, &[b"remove ", name, b"\n"]),
        _ => add_parts(script, &[b"length ", name, b"\n"]),
    }
}

/// A line that a number draws: doors are started, stopped and removed, pressed, asked and relayed to, and time passes.
fn add_drawn(script: &mut Vec<u8>, number: u64) -> Result<(), AllocError> {
    let name = drawn_name(number / 16);
    let other = drawn_name(number / 128);
    let digit = [b"123"[(number / 1024 % 3) as usize]];
    match number % 16 {
        0..=4 => add_about(script, number % 16, &name, &digit),
        5 => add_parts(script, &[b"at ", &digit, b"0000\nat 2", &digit, b"0000\n"]),
        6..=8 => add_parts(script, &[b"button ", &name, b" ", &digit, b"\n"]),
        _ => add_parts(
            script,
            &[b"relay ", &name, b" ", &other, b" ", &digit, b"\n"],
        ),
    }
}

/// The number that is drawn after another.
fn next_of(drawn: u64) -> u64 {
    drawn
        .wrapping_mul(6_364_136_223_846_793_005)
        .wrapping_add(1_442_695_040_888_963_407)
}

/// Lines drawn one after another, always the same.
fn add_all_drawn(script: &mut Vec<u8>) -> Result<(), AllocError> {
    let mut drawn = 1u64;
    for _ in 0..DRAWN {
        drawn = next_of(drawn);
        add_drawn(script, drawn >> 33)?;
    }
    Ok(())
}

/// Lines, and how often they stand there.
static LINES: [(&[u8], usize); 5] = [
    (
        b"new a 1\nnew b 23\nbutton a 1\nbutton b 2\nbutton b 3\n",
        1,
    ),
    (b"button a 1\nbutton b 4\nlength a\n", BUTTONS),
    (b"at 10000\nshow a\nshow b\n", 1),
    (b"at 10000\n", BUTTONS),
    (b"at 40000\nshow a\nshow b\nstop a 1\nremove a\nnames\n", 1),
];

/// Adds all these lines, and those that are drawn.
fn add_all(script: &mut Vec<u8>) -> Result<(), AllocError> {
    for (lines, times) in &LINES {
        add(script, lines, *times)?;
    }
    add_all_drawn(script)
}

/// Buttons wait at two open doors. When those are locked, each of the one's buttons is postponed again, and the other's
/// count; and much time passes in small steps. Then come lines that
/// are drawn.
pub fn long_script(alloc: Global) -> Result<Vec<u8>, AllocError> {
    let mut script = with_reserved(alloc, 65_536);
    add_all(&mut script)?;
    Ok(script)
}
