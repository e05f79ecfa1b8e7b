//! Events while the clock goes on.

use crate::failure::Failure;
use crate::shelf::Files;
use crossbeam_channel::{Receiver, RecvTimeoutError, Sender};
use st_machine::Session;
use std::alloc::Global;
use std::io::Write;
use std::rt::Clock;
use std::sync::Wait;
use std::thread::{self, Threads};
use std::time::{Duration, Instant};

/// How long is waited for a line where no time-out runs, in milliseconds.
const LONGEST_WAIT: u64 = 3_600_000;

/// What reads lines, and waits for lines and moments.
pub(crate) trait Live: Input + AllocGlobal + Clock + Wait + Threads + Copy {}

impl<R: Input + AllocGlobal + Clock + Wait + Threads + Copy> Live for R {}

/// Sends each line of the input, until it ends or nobody takes them any more.
pub(crate) fn pump<R: Live>(rt: &R, lines: &Sender<String, Global>) {
    for line in rt.lines(rt.alloc()) {
        let Ok(line) = line else {
            return;
        };
        if lines.send(rt, line).is_err() {
            return;
        }
    }
}

/// The milliseconds since a moment.
fn passed(rt: &HostRuntime, start: Instant) -> Result<u64, Failure> {
    match start.elapsed(rt) {
        Ok(time) => Ok(u64::try_from(time.as_millis()).unwrap_or(LONGEST_WAIT)),
        Err(_error) => Err(Failure::System),
    }
}

/// How long may be waited until a moment.
fn wait_until(due: Option<u64>, now: u64) -> Duration {
    let wait = match due {
        Some(due) => due.saturating_sub(now),
        None => LONGEST_WAIT,
    };
    Duration::from_millis(wait.min(LONGEST_WAIT))
}

/// Writes what was printed, and empties it.
fn written(rt: &HostRuntime, out: &mut Vec<u8>) -> Result<(), Failure> {
    if rt.stdout().write_all(out.as_slice()).is_err() {
        return Err(Failure::Unwritten(String::from_str(rt.alloc(), "standard output")?));
    }
    out.clear();
    Ok(())
}

/// What came next: a line, that time has passed, or that no line comes any more.
#[derive(Drop)]
enum Came {
    Line(String),
    Time,
    End,
}

/// Waits for a line, or until a moment.
fn next<R: Live>(threads: R, lines: &Receiver<String, Global>, wait: Duration) -> Came {
    match lines.recv_timeout(&threads, wait) {
        Ok(line) => Came::Line(line),
        Err(RecvTimeoutError::Timeout) => Came::Time,
        Err(RecvTimeoutError::Disconnected) => Came::End,
    }
}

/// Does what came, and returns whether a line may still come.
fn take(
    rt: &HostRuntime,
    session: &mut Session,
    came: Came,
    start: Instant,
    out: &mut Vec<u8>,
) -> Result<bool, Failure> {
    session.pass(passed(rt, start)?, out)?;
    match came {
        Came::Line(line) => {
            session.line(&mut Files { rt }, line.as_bytes(), out)?;
            Ok(true)
        }
        Came::Time => Ok(true),
        Came::End => Ok(false),
    }
}

/// Waits until the next time-out is due, where no line comes any more.
fn sleep(
    rt: &HostRuntime,
    session: &mut Session,
    start: Instant,
    out: &mut Vec<u8>,
) -> Result<(), Failure> {
    let wait = wait_until(session.next_due(), passed(rt, start)?);
    thread::sleep(rt, wait);
    Ok(session.pass(passed(rt, start)?, out)?)
}

/// Whether nothing can happen any more.
fn is_over(session: &Session, has_lines: bool) -> bool {
    session.is_over() || !has_lines && session.next_due().is_none()
}

/// Takes lines and lets time pass, until each machine has ended, or no line comes any more and no time-out runs.
pub(crate) fn serve<R: Live>(
    rt: &HostRuntime,
    threads: R,
    session: &mut Session,
    lines: &Receiver<String, Global>,
) -> Result<u8, Failure> {
    let Ok(start) = Instant::now(rt) else {
        return Err(Failure::System);
    };
    let mut out = Vec::new(rt.alloc());
    let mut has_lines = true;
    for _ in threads.forever() {
        if is_over(session, has_lines) {
            break;
        }
        if has_lines {
            let wait = wait_until(session.next_due(), passed(rt, start)?);
            let came = next(threads, lines, wait);
            has_lines = take(rt, session, came, start, &mut out)?;
        } else {
            sleep(rt, session, start, &mut out)?;
        }
        written(rt, &mut out)?;
    }
    session.finish(&mut out)?;
    written(rt, &mut out)?;
    Ok(session.status())
}
