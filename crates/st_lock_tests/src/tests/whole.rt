//! All that can be read of a cell or of a shared machine, but a journal and its base.
use super::asked::{Answered, Asked, Given};
use super::begun::is_made_again;
use super::host::{Host, got, holds};
use super::played::Played;
use super::seen::Seen;
use st_core::Refusal;
use st_lock::Look;
use std::process::Abort;

/// What can be read where there are at most two ports, but a journal and its base: of each port there is its look.
#[derive(PartialEq, Drop)]
pub struct Whole {
    seen: Seen,
    looks: [Option<Look<u32, u32>>; 2],
}

/// What is seen through a port, if it is open, or that there is no memory for it.
fn try_look<T: Played>(played: &mut T, port: u64) -> Result<Option<Look<u32, u32>>, Refusal> {
    match played.ask(Asked::Look(port)) {
        Given::Look(look) => Ok(Some(look)),
        Given::Answer(Answered::Unseen(refusal)) => Err(refusal),
        other => {
            drop(other);
            Ok(None)
        }
    }
}

/// What is seen through a port, if it is open. Where memory was refused, it is asked for again.
fn look<T: Played>(rt: &Host<impl Abort>, played: &mut T, port: u64) -> Option<Look<u32, u32>> {
    match try_look(played, port) {
        Ok(look) => look,
        Err(refusal) => {
            is_made_again(rt, refusal);
            got(
                rt,
                "one allocation alone is refused",
                try_look(played, port),
            )
        }
    }
}

/// All that can be read, but a journal and its base.
pub fn read_all<T: Played>(rt: &Host<impl Abort>, played: &mut T) -> Whole {
    let seen = played.see();
    holds(rt, "there are two ports at most", seen.ports <= 2);
    Whole {
        seen,
        looks: [look(rt, played, 1), look(rt, played, 2)],
    }
}
