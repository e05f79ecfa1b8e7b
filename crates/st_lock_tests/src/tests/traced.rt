//! The trace of a cell whose journal was cut.
ghost use Rattle.std.specs.Prelude.{codes};

use super::begun::TOKEN_5;
use super::by_rows::BEFORE_A_CUT;
use super::celled::plays_at_first;
use super::did::FINISHED;
use super::host::{Host, got};
use super::row::Row;
use st_core::{Entry, Kind};
use st_lock::{Journal, Next};
use st_trace::{StateNames, trace_text};
use std::alloc::Global;
use std::process::Abort;

/// The one state of the machine has this name.
struct Names;

impl StateNames<u32> for Names {
    ghost name_is = { λ names state. codes "locked" };

    fn name(&self, _state: u32) -> &str {
        "locked"
    }
}

/// The journal as text. Where there is no memory, it is made again.
pub fn trace(rt: &Host<impl Abort>, alloc: Global, journal: &Journal<u32, u32>) -> Vec<u8> {
    match trace_text(alloc, journal, &Names) {
        Ok(text) => text,
        Err(_) => {
            rt.retry();
            let again = trace_text(alloc, journal, &Names);
            got(rt, "one allocation alone is refused", again)
        }
    }
}

/// What is printed of a journal that was cut behind its fourth entry: a post and a turn at the moment 7.
const TRACE: &str = "\
machine 0 1 front
         5      1 post                      -          3 cast
         6      - turn                      7          3 cast locked locked finished 0 0 0
summary posts 1 turns 1 finished 1 put_off 0
";

/// What is done behind the cut, and printed.
static BEHIND_A_CUT: [Row; 3] = [
    Row::Posts(5, (1, Entry::Cast, 0), 3, Some(TOKEN_5)),
    Row::Turns(6, TOKEN_5, 7, Next::Rest, (3, Kind::Cast), FINISHED),
    Row::Prints("front", TRACE),
];

#[test]
fn a_trace_begins_behind_the_cut(rt: HostRuntime) {
    let rt = Host::new(rt);
    plays_at_first(
        &rt,
        rt.alloc(),
        &[BEFORE_A_CUT.as_slice(), BEHIND_A_CUT.as_slice()],
    );
    rt.end();
}
