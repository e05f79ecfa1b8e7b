//! The program's words, told to `clap`.

use crate::order::Order;
use clap::{Arg, ArgAction, ArgMatches, Command, Error};
use st_machine::{Drawing, Format};
use std::alloc::{AllocError, Global};

const VERSION: &str = "1.0.0";

const EXAMPLES: &str = "Examples:
  machine check lamp.json
  printf 'new lamp\\ncast press\\nat 10000\\n' | machine run lamp.json
  machine run lamp.json --live
  machine draw lamp.json --format dot | dot -Tsvg > lamp.svg
  machine test lamp.json lamp.cases

docs/MACHINES.md says how a description is written.";

/// A subcommand about a description.
fn about_file<'a>(alloc: Global, name: &'a str, help: &'a str) -> Result<Command<'a>, AllocError> {
    let file = Arg::new(alloc, "FILE")
        .required(true)
        .help("The description, a JSON file");
    Command::new(alloc, name).about(help).arg(file)
}

/// An option without a value.
fn flag<'a>(alloc: Global, name: &'a str, help: &'a str) -> Arg<'a> {
    Arg::new(alloc, name)
        .long(name)
        .action(ArgAction::SetTrue)
        .help(help)
}

/// The subcommand that draws.
fn draw<'a>(alloc: Global) -> Result<Command<'a>, AllocError> {
    let format = Arg::new(alloc, "format")
        .long("format")
        .value_name("FORMAT")
        .value_parser(["mermaid", "dot"].as_slice())
        .default_value("mermaid")
        .help("For whom the diagram is");
    about_file(alloc, "draw", "Prints a diagram of a description")?.arg(format)
}

/// The subcommand that runs.
fn run<'a>(alloc: Global) -> Result<Command<'a>, AllocError> {
    let trace = flag(alloc, "trace", "Prints each machine's trace at the end");
    let json = flag(
        alloc,
        "json",
        "Prints each machine's journal at the end, as JSON lines",
    );
    let look = flag(
        alloc,
        "look",
        "Prints what came of each line, and how all machines are, as a line of JSON",
    );
    let live = flag(
        alloc,
        "live",
        "Takes the moments from the clock: time-outs come by themselves",
    );
    let run = about_file(
        alloc,
        "run",
        "Runs events, which it reads from standard input",
    )?;
    let json = json.conflicts_with("trace")?;
    let look = look.conflicts_with("trace")?.conflicts_with("json")?;
    run.arg(trace)?.arg(json)?.arg(look)?.arg(live)
}

/// The subcommand that runs cases.
fn test<'a>(alloc: Global) -> Result<Command<'a>, AllocError> {
    let cases = Arg::new(alloc, "CASES")
        .required(true)
        .help("The cases: events, and what they are to print");
    let write = flag(
        alloc,
        "write",
        "Writes what came in the place of what was expected",
    );
    let test = about_file(
        alloc,
        "test",
        "Runs cases and compares what they print with what is expected",
    )?;
    test.arg(cases)?.arg(write)
}

/// The program with its subcommands, of which one is required.
fn program<'a>(alloc: Global) -> Result<Command<'a>, AllocError> {
    let bare = Command::new(alloc, "machine")
        .about("Checks, draws, runs and tests machines that are described in files")
        .version(VERSION)
        .after_help(EXAMPLES)
        .subcommand_required(true);
    let check = about_file(
        alloc,
        "check",
        "Tells what is wrong with a description, and what looks wrong",
    )?;
    let format = about_file(alloc, "format", "Prints a description laid out")?;
    let schema = Command::new(alloc, "schema").about(
        "Prints the format of descriptions as a JSON Schema",
    );
    let with_views = bare
        .subcommand(check)?
        .subcommand(draw(alloc)?)?
        .subcommand(format)?;
    with_views
        .subcommand(run(alloc)?)?
        .subcommand(test(alloc)?)?
        .subcommand(schema)
}

/// The value of an argument that `clap` has seen to be there.
fn text_of(alloc: Global, matches: &ArgMatches<'_>, id: &str) -> Result<String, AllocError> {
    String::from_str(alloc, matches.get_str(id).unwrap_or(""))
}

/// For whom a diagram is.
fn drawing_of(matches: &ArgMatches<'_>) -> Drawing {
    match matches.get_str("format") {
        Some("dot") => Drawing::Dot,
        _ => Drawing::Mermaid,
    }
}

/// How a run is printed.
fn format_of(matches: &ArgMatches<'_>) -> Format {
    if matches.get_flag("trace") {
        Format::Trace
    } else if matches.get_flag("json") {
        Format::Json
    } else if matches.get_flag("look") {
        Format::Look
    } else {
        Format::Plain
    }
}

/// What a subcommand that runs asks for.
fn run_order(file: String, matches: &ArgMatches<'_>) -> Order {
    let format = format_of(matches);
    if matches.get_flag("live") {
        Order::Live(file, format)
    } else {
        Order::Run(file, format)
    }
}

/// What a subcommand that runs cases asks for.
fn test_order(alloc: Global, file: String, matches: &ArgMatches<'_>) -> Result<Order, AllocError> {
    let cases = text_of(alloc, matches, "CASES")?;
    if matches.get_flag("write") {
        Ok(Order::Rewrite(file, cases))
    } else {
        Ok(Order::Test(file, cases))
    }
}

/// What a subcommand asks for.
fn order_of(alloc: Global, name: &str, matches: &ArgMatches<'_>) -> Result<Order, AllocError> {
    if name == "schema" {
        return Ok(Order::Schema);
    }
    let file = text_of(alloc, matches, "FILE")?;
    match name {
        "check" => Ok(Order::Check(file)),
        "draw" => Ok(Order::Draw(file, drawing_of(matches))),
        "format" => Ok(Order::Write(file)),
        "test" => test_order(alloc, file, matches),
        _ => Ok(run_order(file, matches)),
    }
}

/// Reads the words of a command line, of which the first is the program's name.
pub(crate) fn read_words(alloc: Global, words: &[String]) -> Result<Order, Error> {
    let program = program(alloc)?;
    let matches = program.try_get_matches_from(words)?;
    match matches.subcommand() {
        Some((name, inner)) => Ok(order_of(alloc, name, inner)?),
        None => Ok(Order::Schema),
    }
}
