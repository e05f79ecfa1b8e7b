//! A hall's turns, one after another, for machines that send: what is delivered, and what is lost.
use super::begun::{FIRST, SECOND, THIRD};
use super::ring_hall::hall_with_memory;
use super::ring_row::Act::{Ends, Finds, Loses, Opens, Posts, Removes, Starts, Turns};
use super::ring_row::Ending::{Stops, TakesOut};
use super::ring_row::{Act, Row};
use st_hall::{MachineId, Refusal, Token};

/// An id that no machine has.
const NOBODY: MachineId = MachineId {
    slot: 9,
    serial: 99,
};

/// The first token of the first machine.
const TOKEN: Token = Token {
    machine: FIRST,
    wake: 1,
};

/// A turn leaves the message.
const LEAVES: Act = Turns(None, 5, true, None);

/// The message is taken, and wakes nobody.
const WAKES_NOBODY: Act = Turns(None, 5, true, None);

/// The sender rests, at whatever moment.
const RESTS: Act = Turns(None, 1 << 63, false, None);

/// Two messages come to the first machine, and the first one wakes it.
#[test]
fn a_message_wakes_its_target(rt: HostRuntime) {
    static ROWS: [Row; 13] = [
        ("the target", Starts(FIRST, FIRST)),
        ("the sender", Starts(FIRST, SECOND)),
        ("the sender's port", Opens(SECOND)),
        ("the first message is wanted", Posts),
        ("the first message is left", LEAVES),
        (
            "the first message wakes its target",
            Turns(None, 5, true, Some(TOKEN)),
        ),
        ("the sender rests", RESTS),
        ("the second message is wanted", Posts),
        ("the second message is left", LEAVES),
        ("the second message wakes nobody", WAKES_NOBODY),
        ("the sender rests again", RESTS),
        ("one more waits", Turns(Some(TOKEN), 5, true, None)),
        ("it is found", Finds(TOKEN)),
    ];
    hall_with_memory(rt, &ROWS);
}

/// A machine sends to one that never was, and another to one that has ended, and that is removed then.
#[test]
fn messages_to_machines_that_are_gone_are_counted(rt: HostRuntime) {
    static ROWS: [Row; 22] = [
        ("the target", Starts(FIRST, FIRST)),
        ("the sender", Starts(FIRST, SECOND)),
        ("who sends astray", Starts(NOBODY, THIRD)),
        ("its port", Opens(THIRD)),
        ("the message astray is wanted", Posts),
        ("the message astray is left", LEAVES),
        ("the message astray wakes nobody", WAKES_NOBODY),
        ("who sent astray rests", RESTS),
        ("the target never was", Loses(0, 1)),
        ("the sender's port", Opens(SECOND)),
        ("the target ends", Ends(FIRST, Stops(3, 7))),
        ("the late message is wanted", Posts),
        ("the late message is left", LEAVES),
        ("the late message wakes nobody", WAKES_NOBODY),
        ("the sender rests", RESTS),
        ("the target has ended", Loses(1, 1)),
        ("the target is removed", Removes(FIRST, Ok(()))),
        ("the last message is wanted", Posts),
        ("the last message is left", LEAVES),
        ("the last message wakes nobody", WAKES_NOBODY),
        ("the sender rests again", RESTS),
        ("the target was removed", Loses(1, 2)),
    ];
    hall_with_memory(rt, &ROWS);
}

/// A machine that has ended with a message left is not removed before that was taken out.
#[test]
fn a_machine_whose_message_is_left_is_not_removed(rt: HostRuntime) {
    static ROWS: [Row; 8] = [
        ("the sender", Starts(FIRST, FIRST)),
        ("its port", Opens(FIRST)),
        ("the message is wanted", Posts),
        ("the message stays", LEAVES),
        ("it ends", Ends(FIRST, Stops(3, 7))),
        (
            "a message is left",
            Removes(FIRST, Err(Refusal::NotStopped)),
        ),
        ("the message is taken out", Ends(FIRST, TakesOut)),
        ("it is removed", Removes(FIRST, Ok(()))),
    ];
    hall_with_memory(rt, &ROWS);
}
