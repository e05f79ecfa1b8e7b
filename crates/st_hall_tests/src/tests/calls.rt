//! Infos, replies from outside, and a call that does not wait.
use super::came::Came::{Reply, Unscheduled};
use super::door_row::Act::{Calls, Checks, Door, Sends};
use super::door_row::Left::{Back, Outstanding};
use super::door_row::Row;
use super::door_row::Serving::{Replies, Serves};
use super::played::one_door;
use super::scheduling::Scheduling;
use super::sending::Sending::{Info, Request};
use super::sends::TOKEN;
use st_door::DoorContent::{CodeLength, Length, Nothing};

#[test]
fn the_first_reply_is_collected(rt: HostRuntime) {
    static ROWS: [Row; 5] = [
        (
            "the info is the first event",
            Sends(Info, Nothing, 1, Back(TOKEN)),
        ),
        (
            "the token is outstanding",
            Sends(Request, CodeLength, 2, Outstanding),
        ),
        ("the first reply is taken", Door(Replies(2, 9, true))),
        ("the second reply is not taken", Door(Replies(2, 9, false))),
        ("the first reply is collected", Checks(Reply(Length(9)))),
    ];
    one_door(rt, Scheduling::ComesBack, &ROWS);
}

#[test]
fn a_call_that_is_not_scheduled_does_not_wait(rt: HostRuntime) {
    static ROWS: [Row; 3] = [
        ("nobody serves the door", Calls(Unscheduled(1, TOKEN))),
        ("it is served", Door(Serves(TOKEN))),
        ("the reply is collected", Checks(Reply(Length(4)))),
    ];
    one_door(rt, Scheduling::ComesBack, &ROWS);
}
