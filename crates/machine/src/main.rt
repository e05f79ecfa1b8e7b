//! `machine`: checks, draws, runs and tests machines that are described in files. It has words, files, the clock and
//! streams, and knows nothing of any rule.
#![tactic(auto)]

mod asked;
mod failure;
mod files;
mod live;
mod order;
mod shelf;
mod words;

use crate::asked::Asked;
use crate::failure::Failure;
use crate::files::{input_bytes, wanted_bytes, whole_bytes};
use crate::live::{pump, serve};
use crate::order::Order;
use crate::shelf::Files;
use crate::words::read_words;
use clap::Error;
use clap::error::ErrorKind;
use crossbeam_channel::bounded;
use st_machine::{
    Drawing, Format, Opened, Output, check_text, draw_text, format_text, open_text, run_text,
    schema, test_text,
};
use std::process::ExitCode;
use std::{env, fs, io, thread};

/// The status of words that are at fault.
const WORDS_AT_FAULT: u8 = 2;

/// Writes a text to standard output, and faults to standard error; the status is as it was.
fn written(rt: &HostRuntime, text: &[u8], faults: &[u8], status: u8) -> Result<u8, Failure> {
    let _ = io::Write::write_all(&mut rt.stderr(), faults);
    match io::Write::write_all(&mut rt.stdout(), text) {
        Ok(()) => Ok(status),
        Err(_error) => Err(Failure::Unwritten(String::from_str(rt.alloc(), "standard output")?)),
    }
}

/// Writes what was made of a description.
fn put(rt: &HostRuntime, output: &Output) -> Result<u8, Failure> {
    written(
        rt,
        output.text.as_slice(),
        output.faults.as_slice(),
        output.status,
    )
}

/// Tells what is wrong with a description, also its faults, on standard output.
fn check(rt: &HostRuntime, file: &str) -> Result<u8, Failure> {
    let text = wanted_bytes(rt, file)?;
    let output = check_text(rt.alloc(), file, text.as_slice())?;
    if output.status == 0 {
        return written(rt, output.text.as_slice(), &[], 0);
    }
    written(rt, output.faults.as_slice(), &[], output.status)
}

/// Draws a description.
fn draw(rt: &HostRuntime, file: &str, drawing: Drawing) -> Result<u8, Failure> {
    let text = wanted_bytes(rt, file)?;
    put(rt, &draw_text(rt.alloc(), file, text.as_slice(), drawing)?)
}

/// Prints a description laid out.
fn format(rt: &HostRuntime, file: &str) -> Result<u8, Failure> {
    let text = wanted_bytes(rt, file)?;
    put(rt, &format_text(rt.alloc(), file, text.as_slice())?)
}

/// Runs events.
fn run(rt: &HostRuntime, file: &str, format: Format) -> Result<u8, Failure> {
    let text = wanted_bytes(rt, file)?;
    let events = input_bytes(rt)?;
    let output = run_text(
        rt.alloc(),
        file,
        text.as_slice(),
        events.as_slice(),
        format,
        &mut Files { rt },
    )?;
    put(rt, &output)
}

/// Runs cases, and compares what they print; or writes it, unless the description has faults.
fn test(rt: &HostRuntime, file: &str, cases: &str, writes: bool) -> Result<u8, Failure> {
    let text = wanted_bytes(rt, file)?;
    let given = whole_bytes(rt, cases)?;
    let tested = test_text(
        rt.alloc(),
        file,
        text.as_slice(),
        given.as_slice(),
        &mut Files { rt },
    )?;
    if !writes || !tested.faults.is_empty() {
        return written(
            rt,
            tested.text.as_slice(),
            tested.faults.as_slice(),
            tested.status,
        );
    }
    match fs::write(rt, cases, tested.written.as_slice()) {
        Ok(()) => Ok(0),
        Err(_error) => Err(Failure::Unwritten(String::from_str(rt.alloc(), cases)?)),
    }
}

/// Prints the format of descriptions.
fn print_schema(rt: &HostRuntime) -> Result<u8, Failure> {
    match print!(rt; "{}", schema()) {
        Ok(()) => Ok(0),
        Err(_error) => Err(Failure::Unwritten(String::from_str(rt.alloc(), "standard output")?)),
    }
}

/// Opens a session for events that come while the clock goes on. Of a description with faults these are written.
fn open(rt: &HostRuntime, file: &str, format: Format) -> Result<Asked, Failure> {
    let text = wanted_bytes(rt, file)?;
    match open_text(rt.alloc(), file, text.as_slice(), format)? {
        Opened::Session(session) => Ok(Asked::Live(session)),
        Opened::Faults(output) => Ok(Asked::Done(put(rt, &output)?)),
    }
}

/// Does what is asked for, or opens a session for live events.
fn done(rt: &HostRuntime, order: Order) -> Result<Asked, Failure> {
    let status = match order {
        Order::Check(file) => check(rt, file.as_str()),
        Order::Draw(file, drawing) => draw(rt, file.as_str(), drawing),
        Order::Write(file) => format(rt, file.as_str()),
        Order::Run(file, format) => run(rt, file.as_str(), format),
        Order::Live(file, format) => return open(rt, file.as_str(), format),
        Order::Test(file, cases) => test(rt, file.as_str(), cases.as_str(), false),
        Order::Rewrite(file, cases) => test(rt, file.as_str(), cases.as_str(), true),
        Order::Schema => print_schema(rt),
    };
    match status {
        Ok(status) => Ok(Asked::Done(status)),
        Err(failure) => Err(failure),
    }
}

/// Says what `clap` has to say, and returns the status: help and the version go to standard output, a fault of the words to
/// standard error.
fn told(rt: &HostRuntime, error: &Error) -> Result<u8, Failure> {
    if error.kind() == ErrorKind::OutOfMemory {
        return Err(Failure::Memory);
    }
    let text = error.to_string(rt.alloc())?;
    if error.kind() == ErrorKind::DisplayHelp || error.kind() == ErrorKind::DisplayVersion {
        return match print!(rt; "{text}") {
            Ok(()) => Ok(0),
            Err(_error) => Err(Failure::Unwritten(String::from_str(
                rt.alloc(),
                "standard output",
            )?)),
        };
    }
    let _ = eprint!(rt; "{text}");
    Ok(WORDS_AT_FAULT)
}

/// Reads the words, and does what they ask for, or opens a session for live events.
fn started(rt: &HostRuntime) -> Result<Asked, Failure> {
    let words: Vec<String> = match env::args(rt) {
        Ok(words) => words.collect(rt.alloc())?,
        Err(_error) => return Err(Failure::Memory),
    };
    match read_words(rt.alloc(), words.as_slice()) {
        Ok(order) => done(rt, order),
        Err(error) => Ok(Asked::Done(told(rt, &error)?)),
    }
}

/// Says why the program cannot go on, and returns the status.
fn ended(rt: &HostRuntime, failure: Failure) -> u8 {
    match failure {
        Failure::Memory => {
            let _ = eprintln!(rt; "machine: no memory");
            4
        }
        Failure::Unread(name) => {
            let _ = eprintln!(rt; "machine: {name} cannot be read");
            3
        }
        Failure::Unwritten(name) => {
            let _ = eprintln!(rt; "machine: {name} cannot be written");
            3
        }
        Failure::TooLong(name) => {
            let _ = eprintln!(rt; "machine: {name} has more than 1,048,576 bytes");
            3
        }
        Failure::System => {
            let _ = eprintln!(rt; "machine: the system gives no clock or no thread");
            3
        }
    }
}

// What a thread is to carry is known here alone, so it is here that the thread starts which reads lines.
fn main(rt: HostRuntime) -> ExitCode {
    let mut session = match started(&rt) {
        Ok(Asked::Live(session)) => session,
        Ok(Asked::Done(status)) => return ExitCode::from(status),
        Err(failure) => return ExitCode::from(ended(&rt, failure)),
    };
    session.has_clock = true;
    let Ok((to, from)) = bounded(rt.alloc(), 16) else {
        return ExitCode::from(ended(&rt, Failure::Memory));
    };
    let Ok(_reader) = thread::spawn(&rt, move || pump(&rt, &to)) else {
        return ExitCode::from(ended(&rt, Failure::System));
    };
    match serve(&rt, rt, &mut session, &from) {
        Ok(status) => ExitCode::from(status),
        Err(failure) => ExitCode::from(ended(&rt, failure)),
    }
}
