//! Casts and requests, where the token is scheduled and where it comes back.
use super::begun::FIRST;
use super::came::Came;
use super::door_row::Act::{Checks, Door, Sends};
use super::door_row::Left::{Back, Outstanding, Scheduled};
use super::door_row::Row;
use super::door_row::Serving::{Serves, Takes};
use super::played::one_door;
use super::scheduling::Scheduling;
use super::sending::Sending::{Cast, Request};
use st_client::Token;
use st_door::DoorContent::{Button, CodeLength, Length};

/// The only door's first token.
pub const TOKEN: Token = Token {
    machine: FIRST,
    wake: 1,
};

#[test]
fn a_token_is_scheduled_once(rt: HostRuntime) {
    static ROWS: [Row; 4] = [
        ("the first event", Sends(Cast, Button(1), 1, Scheduled)),
        (
            "the token is outstanding",
            Sends(Cast, Button(1), 2, Outstanding),
        ),
        ("the door's token waits", Door(Takes(TOKEN))),
        ("it is served", Door(Serves(TOKEN))),
    ];
    one_door(rt, Scheduling::OnTray, &ROWS);
}

#[test]
fn a_token_that_is_not_scheduled_comes_back(rt: HostRuntime) {
    static ROWS: [Row; 6] = [
        (
            "its token comes back",
            Sends(Cast, Button(1), 1, Back(TOKEN)),
        ),
        (
            "the token is outstanding",
            Sends(Request, CodeLength, 2, Outstanding),
        ),
        ("the request waits", Checks(Came::Waiting)),
        ("it is served", Door(Serves(TOKEN))),
        ("the reply is collected", Checks(Came::Reply(Length(4)))),
        ("the reply is collected once", Checks(Came::Gone)),
    ];
    one_door(rt, Scheduling::ComesBack, &ROWS);
}
