//! A message of one cell is delivered to another, and stands in the journals of both.
use super::begun::{Begin, ID, TOKEN_1};
use super::celled::{plays_at_first, plays_from};
use super::did::{SENT, SET};
use super::host::Host;
use super::plain::OTHER;
use super::row::Row;
use st_core::{Entry, Kind};
use st_events::Token;
use st_lock::Next;

/// The token that the other machine is issued.
const OTHERS_TOKEN: Token = Token {
    machine: OTHER,
    wake: 1,
};

/// What is printed of the cell that sends.
const SENDER: &str = "\
machine 0 1 a
         1      1 post                      -          1 cast
         2      - turn                      0          1 cast locked locked finished 0 0 0 sent 1
         3      - take                      -          1 to 1 2
summary posts 1 turns 1 finished 1 put_off 0
";

/// What is printed of the cell to which it is sent.
const TARGET: &str = "\
machine 1 2 b
         1      - post                      -          1 info from 0 1 1
         2      - turn                      0          1 info locked locked finished 0 0 1
summary posts 1 turns 1 finished 1 put_off 0
";

/// A cell sends a message to the other machine: the first one, with the content 3. It is taken out.
static SENDS: [Row; 5] = [
    Row::Opens(1),
    Row::Posts(1, (1, Entry::Cast, 10), 1, Some(TOKEN_1)),
    Row::Turns(2, TOKEN_1, 0, Next::Again(TOKEN_1), (1, Kind::Cast), SENT),
    Row::Takes(3, TOKEN_1, 1, 3),
    Row::Prints("a", SENDER),
];

/// The other machine has just started.
static OTHER_AT_FIRST: Begin = Begin {
    id: OTHER,
    first: 1,
    contents: &[],
    wake: None,
};

/// The cell of the other machine gets that message.
static GETS: [Row; 3] = [
    Row::Delivers(1, (ID, 1, 3), 1, Some(OTHERS_TOKEN)),
    Row::Turns(2, OTHERS_TOKEN, 0, Next::Rest, (1, Kind::Info), SET),
    Row::Prints("b", TARGET),
];

#[test]
fn a_message_goes_from_cell_to_cell(rt: HostRuntime) {
    let rt = Host::new(rt);
    plays_at_first(&rt, rt.alloc(), &[SENDS.as_slice()]);
    plays_from(&rt, rt.alloc(), &OTHER_AT_FIRST, &[GETS.as_slice()]);
    rt.end();
}
