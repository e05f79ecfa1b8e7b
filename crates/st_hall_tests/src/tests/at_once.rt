//! Calls to a door that is served as soon as its token is scheduled.
use super::came::Came;
use super::door_row::Act::Calls;
use super::door_row::Row;
use super::played::{doors_with_memory, one_door};
use super::scheduling::Scheduling;
use st_door::DoorContent::Length;

#[test]
fn a_call_to_a_door_that_is_served_is_answered(rt: HostRuntime) {
    static ROWS: [Row; 1] = [("it is answered", Calls(Came::Reply(Length(4))))];
    one_door(rt, Scheduling::AtOnce, &ROWS);
}

#[test]
fn a_reply_that_another_collects_is_gone(rt: HostRuntime) {
    static ROWS: [Row; 1] = [("another has collected it", Calls(Came::Gone))];
    doors_with_memory(rt, &[None], Scheduling::AtOnceAndCollected, &ROWS);
}
