//! The program's words, told to `clap`.
ghost use Rattle.std.specs.Prelude.{◌≡◌, IfOk, false};
ghost use Rattle.clap.specs.Words.{app_of, new_app, rule_of};
ghost use Rattle.clap.specs.declared.builder.command.Command.TheViews.{out-Command as fields_of};
ghost use Rattle.st_words.specs.Program.{pool, statem, workers};

use clap::{Arg, ArgAction, Command, value_parser};
use std::alloc::{AllocError, Global};

/// The option that says how many workers a pool has.
fn workers<'a>(alloc: Global) -> Arg<'a>
    ensures rule { rule_of result ≡ workers }
    ensures local { result.global ≡ false }
{
    Arg::new(alloc, "workers")
        .long("workers")
        .value_name("N")
        .action(ArgAction::Set)
        .value_parser(value_parser!(u8).range(1..=16))
        .default_value("2")
        .help("How many workers there are, from 1 to 16")
}

/// A command with nothing but a name and what help says of it.
fn command<'a>(alloc: Global, name: &'a str, help: &'a str) -> Command<'a>
    ensures named { app_of result ≡ new_app name.entry.now }
    ensures local { (fields_of result).has_globals ≡ false }
{
    Command::new(alloc, name).about(help)
}

/// The subcommand of a pool, with its option.
fn pool<'a>(alloc: Global) -> Result<Command<'a>, AllocError>
    ensures named { IfOk result (λ made. app_of made ≡ pool) }
    ensures local { IfOk result (λ made. (fields_of made).has_globals ≡ false) }
{
    let empty = command(
        alloc,
        "pool",
        "Prints what run prints, with workers in threads",
    );
    empty.arg(workers(alloc))
}

/// The program with its subcommands, of which one is required.
pub(crate) fn program<'a>(alloc: Global) -> Result<Command<'a>, AllocError>
    ensures { IfOk result (λ program. app_of program ≡ statem) }
{
    let empty = command(
        alloc,
        "statem",
        "Runs a script of doors, which it reads from standard input",
    );
    let bare = empty.subcommand_required(true);
    let run = command(alloc, "run", "Prints a line for each command of the script");
    let with_run = bare.subcommand(run)?;
    let trace = command(
        alloc,
        "trace",
        "Prints the whole history of each door at the end",
    );
    let with_trace = with_run.subcommand(trace)?;
    let pool = pool(alloc)?;
    with_trace.subcommand(pool)
}
