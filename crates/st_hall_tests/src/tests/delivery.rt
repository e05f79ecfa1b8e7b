//! A message is delivered by a hall where one allocation is refused: it comes all the same, once.
use super::begun::{FIRST, SECOND};
use super::ring_hall::empty_hall;
use super::ring_row::Act::{Opens, Posts, Serves, Starts};
use super::ring_row::Row;
use st_hall::Token;

#[test]
fn a_delivery_that_finds_no_memory_is_made_again(rt: HostRuntime) {
    const TOKEN: Token = Token {
        machine: FIRST,
        wake: 1,
    };
    static ROWS: [Row; 8] = [
        ("the target", Starts(FIRST, FIRST)),
        ("the sender", Starts(FIRST, SECOND)),
        ("the sender's port", Opens(SECOND)),
        ("it is to send", Posts),
        ("its message is left", Serves(None, true, None)),
        ("its target is woken", Serves(None, true, Some(TOKEN))),
        ("it rests", Serves(None, false, None)),
        ("one event came, once", Serves(Some(TOKEN), false, None)),
    ];
    empty_hall(rt, &ROWS);
}
