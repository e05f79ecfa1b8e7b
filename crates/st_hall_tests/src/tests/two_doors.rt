//! Requests to two doors are gathered in one collection.
use super::begun::{FIRST, SECOND};
use super::door_row::Act::{Counts, Door, Gathers, Lists, Sends, Shows};
use super::door_row::Left::Back;
use super::door_row::Row;
use super::door_row::Serving::{Replies, TurnsTo};
use super::played::doors_with_memory;
use super::scheduling::Scheduling;
use super::sending::Sending::Request;
use super::sends::TOKEN;
use super::shown::Shown::{NoReply, Response};
use st_client::{Tag, Token};
use st_door::DoorContent::{CodeLength, Length};

/// The first request to the first door.
const TO_FRONT: Tag = Tag {
    machine: FIRST,
    request: 1,
};

/// The first request to the second door.
const TO_BACK: Tag = Tag {
    machine: SECOND,
    request: 1,
};

/// The second door's first token.
const TOKEN_OF_BACK: Token = Token {
    machine: SECOND,
    wake: 1,
};

#[test]
fn requests_to_two_doors_are_gathered(rt: HostRuntime) {
    static ROWS: [Row; 10] = [
        (
            "the first door is asked",
            Sends(Request, CodeLength, 1, Back(TOKEN)),
        ),
        ("the first one is added", Gathers('a')),
        ("the second door", Door(TurnsTo(SECOND))),
        (
            "the second door is asked",
            Sends(Request, CodeLength, 1, Back(TOKEN_OF_BACK)),
        ),
        ("the second one is added", Gathers('b')),
        ("both are listed", Lists(&[(TO_FRONT, 'a'), (TO_BACK, 'b')])),
        ("the reply is taken", Door(Replies(1, 60, true))),
        ("the second reply", Shows(Response(Length(60), 'b'))),
        ("one is left", Counts(1)),
        ("the first waits", Shows(NoReply)),
    ];
    let names = [Some("front"), Some("back")];
    doors_with_memory(rt, &names, Scheduling::ComesBack, &ROWS);
}
