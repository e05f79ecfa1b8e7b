//! `bench NAME COUNT [MORE]`: does what one line says, COUNT times, and prints how many events were handled, how many
//! tokens came out of a run queue in order, how many rounds served one, or what else the line counts. It takes no time:
//! `tools/count-instructions` counts what the processor does.
//! `bench all COUNT [MORE]` does each line.
#![tactic(auto)]

mod cell;
mod drive;
mod due;
mod halls;
mod latch;
mod line;
mod load;
mod pool;
mod queue;
mod restless;
mod robbed_queue;
mod rounds;
mod services;
mod shared;
mod shared_queue;
mod silent;
mod turns;
mod watch;
mod workers;

use line::{LINES, Line};
use st_core::Refusal;
use st_pool::Runtime;
use std::alloc::Global;
use std::process::ExitCode;
use std::random::RandomSource;
use std::rt::Clock;
use std::{env, io};

/// The status of words that are not understood.
const NOT_UNDERSTOOD: u8 = 2;

/// The line of a name.
fn line_of(name: &str) -> Option<Line> {
    for (known, line) in &LINES {
        if *known == name {
            return Some(*line);
        }
    }
    None
}

/// Does one line, and writes down what it counts.
fn measure<R: Runtime + Clock + RandomSource>(
    rt: R,
    alloc: Global,
    name: &str,
    line: Line,
    count: u32,
    more: u32,
    log: &mut String,
) -> Result<(), Refusal> {
    let handled = line.done(rt, alloc, count, more)?;
    log.push_str(format!(in alloc; "{name} {count} {more}: {handled}\n")?.as_str())?;
    Ok(())
}

/// Does the line of a name, or each of them, and answers what was written down; nothing where no line has that name.
fn report<R: Runtime + Clock + RandomSource>(
    rt: R,
    alloc: Global,
    name: &str,
    count: u32,
    more: u32,
) -> Result<String, Refusal> {
    let mut log = String::new(alloc);
    if name == "all" {
        for (known, line) in &LINES {
            measure(rt, alloc, known, *line, count, more, &mut log)?;
        }
    } else if let Some(line) = line_of(name) {
        measure(rt, alloc, name, line, count, more, &mut log)?;
    }
    Ok(log)
}

/// The program's name and the words after it.
fn words(rt: &HostRuntime) -> io::Result<Vec<String>> {
    Ok(env::args(rt)?.collect(rt.alloc())?)
}

/// A number, if a word is one.
fn number(word: &String) -> Option<u32> {
    word.as_str().parse::<u32>().ok()
}

/// What is asked for: a name and two numbers, of which the second is 1 where it is not given.
fn asked(words: &[String]) -> Option<(&str, u32, u32)> {
    match words {
        [_, name, count] => Some((name.as_str(), number(count)?, 1)),
        [_, name, count, more] => Some((name.as_str(), number(count)?, number(more)?)),
        _ => None,
    }
}

fn main(rt: HostRuntime) -> ExitCode {
    let Ok(words) = words(&rt) else {
        return ExitCode::from(NOT_UNDERSTOOD);
    };
    let Some((name, count, more)) = asked(words.as_slice()) else {
        let _ = eprintln!(rt; "bench: bench NAME COUNT [MORE]");
        return ExitCode::from(NOT_UNDERSTOOD);
    };
    match report(rt, rt.alloc(), name, count, more) {
        Ok(log) if log.is_empty() => ExitCode::from(NOT_UNDERSTOOD),
        Ok(log) => match print!(rt; "{log}") {
            Ok(()) => ExitCode::SUCCESS,
            Err(_) => ExitCode::FAILURE,
        },
        Err(refusal) => {
            let _ = eprintln!(rt; "bench: {refusal}");
            ExitCode::FAILURE
        }
    }
}
