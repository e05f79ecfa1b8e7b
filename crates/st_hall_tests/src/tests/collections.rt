//! Requests to a door are gathered.
use super::door_row::Act::{Counts, Door, Gathers, Sends, Shows};
use super::door_row::Left::{Back, Outstanding, SomeBack};
use super::door_row::Row;
use super::door_row::Serving::{Replies, Serves, Stops};
use super::played::one_door;
use super::scheduling::Scheduling;
use super::sending::Sending::Request;
use super::sends::TOKEN;
use super::shown::Shown::{NoReply, NoRequest, Response, Stopped};
use st_door::DoorContent::{CodeLength, Length};

/// The second request was answered before the door was stopped, and the third was not.
#[test]
fn requests_to_a_door_are_gathered(rt: HostRuntime) {
    static ROWS: [Row; 14] = [
        ("none at first", Shows(NoRequest)),
        (
            "the first request",
            Sends(Request, CodeLength, 1, Back(TOKEN)),
        ),
        ("the first one is added", Gathers('a')),
        (
            "the second request",
            Sends(Request, CodeLength, 2, Outstanding),
        ),
        ("the second one is added", Gathers('b')),
        ("both wait", Shows(NoReply)),
        ("the door is served", Door(Serves(TOKEN))),
        ("the first reply", Shows(Response(Length(4), 'a'))),
        ("the third request", Sends(Request, CodeLength, 3, SomeBack)),
        ("the third one is added", Gathers('c')),
        ("the door is stopped", Door(Stops(3))),
        ("the second reply", Shows(Response(Length(4), 'b'))),
        ("the third is told", Shows(Stopped(3, 'c'))),
        ("none at last", Shows(NoRequest)),
    ];
    one_door(rt, Scheduling::ComesBack, &ROWS);
}

/// The second request is taken out once it is replied to, and the first one waits.
#[test]
fn the_first_that_does_not_wait_is_taken_out(rt: HostRuntime) {
    static ROWS: [Row; 8] = [
        (
            "the first request",
            Sends(Request, CodeLength, 1, Back(TOKEN)),
        ),
        ("the first one is added", Gathers('a')),
        (
            "the second request",
            Sends(Request, CodeLength, 2, Outstanding),
        ),
        ("the second one is added", Gathers('b')),
        (
            "the second request is replied to",
            Door(Replies(2, 9, true)),
        ),
        ("the second reply", Shows(Response(Length(9), 'b'))),
        ("one is left", Counts(1)),
        ("the first waits", Shows(NoReply)),
    ];
    one_door(rt, Scheduling::ComesBack, &ROWS);
}
