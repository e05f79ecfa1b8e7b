//! A program around the modules of a lift, of a mailbox and of a connection of a pool, to be copied. It reads lines on
//! standard input, hands each to the session that was begun last, and writes what happens. A line that begins with
//! `@MILLISECONDS` says the moment: the program reads no clock.
#![tactic(auto)]

mod fault;
mod keeper;
mod lift;
mod line;
mod log;
mod mail;
mod server;
mod session;
mod start;
mod time;

use fault::Fault;
use session::Session;
use std::alloc::Global;
use std::process::ExitCode;

/// Hands a line to the session, and writes what it says.
fn hand_line(
    rt: &HostRuntime,
    alloc: Global,
    session: &mut Session,
    line: &str,
) -> Result<(), Fault> {
    let said = session.take_line(alloc, line)?;
    print!(rt; "{said}")?;
    Ok(())
}

/// Hands each line to the session.
fn hand_on(rt: &HostRuntime, alloc: Global, session: &mut Session) -> Result<(), Fault> {
    for line in rt.lines(alloc) {
        hand_line(rt, alloc, session, line?.as_str())?;
    }
    Ok(())
}

/// Serves each line. No session was begun before the first.
fn serve(rt: &HostRuntime, alloc: Global) -> Result<(), Fault> {
    let mut session = Session::Absent;
    let served = hand_on(rt, alloc, &mut session);
    drop(session);
    served
}

fn main(rt: HostRuntime) -> ExitCode {
    match serve(&rt, rt.alloc()) {
        Ok(()) => ExitCode::SUCCESS,
        Err(fault) => {
            let _ = eprintln!(rt; "sessions: {fault}");
            ExitCode::FAILURE
        }
    }
}
