//! Two services, to be copied: lamps that are lit and counted, and a pool of connections that are lent.
#![tactic(auto)]

mod connections;
mod counting;
mod lamps;
mod shutting;

use st_service::{Refusal, Runtime};
use std::alloc::{AllocError, Global};
use std::process::ExitCode;
use std::random::RandomSource;
use std::rt::Clock;

/// Runs both, and answers what they say.
fn run<R: Runtime + Clock + RandomSource>(rt: R, alloc: Global) -> Result<String, AllocError> {
    let lamps = lamps::run(rt, alloc)?;
    let connections = connections::run(rt, alloc)?;
    format!(in alloc; "{lamps}{connections}")
}

fn main(rt: HostRuntime) -> ExitCode {
    match run(rt, rt.alloc()) {
        Ok(log) => match print!(rt; "{log}") {
            Ok(()) => ExitCode::SUCCESS,
            Err(_) => ExitCode::FAILURE,
        },
        Err(_) => {
            let _ = eprintln!(rt; "services: {}", Refusal::NoMemory);
            ExitCode::FAILURE
        }
    }
}
