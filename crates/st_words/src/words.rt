//! Words of a command line, read.
ghost use Rattle.std.specs.Prelude.{◌≡◌, IfOk, IfErr, map, true};
ghost use Rattle.clap.specs.Words.{fault_of, kind_of, subcommand_of, takes, FailsBy};
ghost use Rattle.st_words.specs.Order.{order_of, HasWorkers};
ghost use Rattle.st_words.specs.Program.{statem};

use crate::Order;
use crate::asked::asked;
use crate::program::program;
use clap::Error;
use clap::error::ErrorKind;
use std::alloc::Global;
use std::convert::AsStr;

/// Reads the words of a command line, of which the first is the program's name.
///
/// The words are all that is read: nothing comes from the environment, and nothing is printed. An error's kind
/// (`Error::kind`) says which of three things came. At `ErrorKind::DisplayHelp` the words ask for help, and the error's
/// text is that help. At `ErrorKind::OutOfMemory` there was no memory, and the same call can be made again. At each
/// other kind the words are at fault, and the error's text says how. `Error::exit_code` is 2 at the last two.
///
/// Ours: docs/SCRIPTS.md, The command line.
pub fn read_words<S: AsStr>(alloc: Global, words: &[S]) -> Result<Order, Error>
    ensures order { IfOk result (λ order. order ≡ order_of (subcommand_of statem (map S.text words.now))) }
    ensures workers { IfOk result HasWorkers }

    ensures refusals { IfErr result (λ error. takes statem (map S.text words.now) ≡ true
        → kind_of error ≡ ErrorKind.OutOfMemory) }
    ensures faults { FailsBy (fault_of statem (map S.text words.now)) result }
{
    let program = program(alloc)?;
    match program.try_get_matches_from(words) {
        Ok(matches) => Ok(asked(&matches)),
        Err(error) => Err(error),
    }
}
