//! `statem`: runs a script of doors, which it reads on standard input, and writes to standard output what it prints.
//! It knows nothing of any rule.
#![tactic(auto)]

mod called;

ghost use Rattle.std.specs.Prelude.{◌≡◌, ◌<◌, IfOk, IfErr, IfSome, OnOk, OnErr, MatchResult, Err};
ghost use Rattle.std.specs.Io.KnownBytes.{Appends, IsAtEnd, Keeps};
ghost use Rattle.st_door.specs.Script.{DoesSome, output_of, status_of_script};
ghost use Rattle.st_doors.specs.ScriptFault.{IsOfInput, read_failures_after, write_failures_after};
ghost use Rattle.st_doors.specs.Streams.{AppendsFront, ConsumesMoreThan};
ghost use Rattle.statem.specs.Program.{mode_of, status_of};
ghost use Rattle.st_words.specs.Order.{HasWorkers};

use crate::called::Called;
use clap::Error;
use clap::error::ErrorKind;
use st_door::{Counted, INPUT_LIMIT, Mode, ScriptFault, Sink, Source, run_script};
use st_door_pool::{Runtime, run_pool};
use st_words::{Order, read_words};
use std::alloc::Global;
use std::marker::Brand;
use std::process::ExitCode;
use std::sync::ledger::{Blank, Ledger};
use std::{env, io};

/// The status of words that are at fault.
const WORDS_AT_FAULT: u8 = 2;

/// The program's status after a fault.
fn status_of(fault: ScriptFault) -> u8
    ensures { result ≡ status_of fault }
{
    match fault {
        ScriptFault::Read | ScriptFault::TooLong | ScriptFault::Write => 3,
        ScriptFault::Memory => 4,
    }
}

/// The program's name and the words after it. A name that is not text is no word: it counts as empty.
fn words(rt: &HostRuntime) -> io::Result<Vec<String>> {
    Ok(env::args(&Called { rt })?.collect(rt.alloc())?)
}

/// Does what is asked for between a reader and a writer, and answers the script's status. Without workers it is
/// `run_script` in the mode that is asked for.
fn ordered<R: Runtime, S: Source, W: Sink>(
    threads: R,
    alloc: Global,
    order: Order,
    reader: &mut S,
    writer: &mut W,
) -> Result<u8, ScriptFault>
    requires workers { HasWorkers order }
    ensures status { IfOk result (λ status. IfSome (mode_of order) (λ mode. IfSome (S.left reader.old) (λ input. status ≡ status_of_script mode input))) }
    ensures output { OnOk result (IfSome (mode_of order) (λ mode. IfSome (S.left reader.old) (λ input. Appends (W.held writer.old) (W.held writer.new) (output_of mode input)))) }
    ensures some { IfOk result (λ status. IfSome (mode_of order) (λ mode. DoesSome mode (S.left reader.old) (S.left reader.new) (W.held writer.old) (W.held writer.new) status)) }
    ensures whole { OnOk result (IsAtEnd (S.left reader.new)) }

    ensures front { OnErr result (IfSome (mode_of order) (λ mode. IfSome (S.left reader.old) (λ input. AppendsFront (W.held writer.old) (W.held writer.new) (output_of mode input)))) }
    ensures unwritten { IfErr result (λ fault. IsOfInput fault → Keeps (W.held writer.old) (W.held writer.new)) }
    ensures read_failures { MatchResult result (λ _. S.failures reader.new ≡ S.failures reader.old)
        (λ fault. S.failures reader.new ≡ read_failures_after fault (S.failures reader.old)) }
    ensures too_long { result ≡ Err ScriptFault.TooLong → ConsumesMoreThan (S.left reader.old) (S.left reader.new) INPUT_LIMIT }
    ensures write_failures { MatchResult result (λ _. W.failures writer.new ≡ W.failures writer.old)
        (λ fault. W.failures writer.new ≡ write_failures_after fault (W.failures writer.old)) }
{
    match order {
        Order::Run => run_script(alloc, Mode::Run, reader, writer),
        Order::Trace => run_script(alloc, Mode::Trace, reader, writer),
        Order::Pool(workers) => run_pool(threads, alloc, usize::from(workers), reader, writer),
    }
}

/// Does what is asked for between the standard streams, and answers the program's status.
fn done<A: Ledger, B: Ledger, R: Runtime>(
    rt: &HostRuntime,
    threads: R,
    order: Order,
    reads: Blank,
    writes: Blank,
) -> Result<u8, ScriptFault>
    requires workers { HasWorkers order }
    requires reads { (reads.name ≡ A.name) × (reads.parts ≡ A.parts) × (0 < reads.parts) }
    requires writes { (writes.name ≡ B.name) × (writes.parts ≡ B.parts) × (0 < writes.parts) }
{
    let alloc = rt.alloc();
    let mut reader: Counted<_, A> = Counted::new(rt.stdin(), reads);
    let mut writer: Counted<_, B> = Counted::new(rt.stdout(), writes);
    ordered(threads, alloc, order, &mut reader, &mut writer)
}

/// Says what `clap` has to say, and answers the program's status: help goes to standard output, a fault of the words to
/// standard error.
fn told(rt: &HostRuntime, error: &Error) -> Result<u8, ScriptFault> {
    if error.kind() == ErrorKind::OutOfMemory {
        return Err(ScriptFault::Memory);
    }
    let text = error.to_string(rt.alloc())?;
    if error.kind() == ErrorKind::DisplayHelp {
        return match print!(rt; "{text}") {
            Ok(()) => Ok(0),
            Err(_) => Err(ScriptFault::Write),
        };
    }
    let _ = eprint!(rt; "{text}");
    Ok(WORDS_AT_FAULT)
}

/// Reads the program's words and does what they ask for.
fn asked<R: Runtime>(rt: &HostRuntime, threads: R) -> Result<u8, ScriptFault> {
    let words = match words(rt) {
        Ok(words) => words,
        Err(fault) if fault.kind() == io::ErrorKind::OutOfMemory => {
            return Err(ScriptFault::Memory);
        }
        Err(_) => {
            let _ = eprintln!(rt; "error: a word is not text");
            return Ok(WORDS_AT_FAULT);
        }
    };
    match read_words(rt.alloc(), words.as_slice()) {
        Ok(order) => done::<Brand, Brand, R>(rt, threads, order, Blank::new(1), Blank::new(1)),
        Err(error) => told(rt, &error),
    }
}

fn main(rt: HostRuntime) -> ExitCode {
    match asked(&rt, rt) {
        Ok(status) => ExitCode::from(status),
        Err(fault) => {
            let _ = eprintln!(rt; "statem: {fault}");
            ExitCode::from(status_of(fault))
        }
    }
}
