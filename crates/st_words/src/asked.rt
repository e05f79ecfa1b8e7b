//! What is asked for by words that `clap` has taken.
ghost use Rattle.std.specs.Prelude.{◌≡◌, ◌≤◌, option_copied};
ghost use Rattle.clap.specs.Words.{subcommand_rows_of};
ghost use Rattle.st_words.specs.Order.{order_of, workers_of, HasWorkers};

use crate::Order;
use clap::ArgMatches;

/// The number of workers, from the text that was found for it. `clap` has refused each number that is not within the
/// bounds, and has put in 2 where no text was given.
fn workers_in(text: Option<&str>) -> u8
    ensures number { result ≡ workers_of (option_copied text.entry) }
    ensures least { 1 ≤ result }
    ensures most { result ≤ 16 }
{
    match text {
        Some(text) => {
            let number = text.parse::<u8>().unwrap_or(0);
            number.clamp(1, 16)
        }
        None => 2,
    }
}

/// What the subcommand that was met asks for. `clap` has refused words without one, and with one of another name.
pub(crate) fn asked(matches: &ArgMatches<'_>) -> Order
    ensures order { result ≡ order_of (subcommand_rows_of matches.now) }
    ensures workers { HasWorkers result }
{
    match matches.subcommand() {
        Some((name, inner)) => {
            if name == "pool" {
                Order::Pool(workers_in(inner.get_str("workers")))
            } else if name == "trace" {
                Order::Trace
            } else {
                Order::Run
            }
        }
        None => Order::Run,
    }
}
