//! Scripts whose outputs are worked out by hand, each by itself.

use super::host::Host;
use super::streams::shows;
use std::io::Print;
use std::process::Abort;

/// A script, what its lines print, the traces of the doors that are left at its end, and its status.
#[derive(Clone, Copy)]
pub struct Worked {
    pub script: &'static [u8],
    pub output: &'static str,
    pub trace: &'static str,
    pub status: u8,
}

/// No line at all.
const EMPTY: Worked = Worked {
    script: b"",
    output: "",
    trace: "",
    status: 0,
};

/// A code opens a door.
const OPENING: Worked = Worked {
    script: b"new front 12\nbutton front 1\nbutton front 2\n",
    output: "front locked buttons 0 waiting 0\n\
         front locked buttons 1 waiting 0\n\
         front open buttons 0 waiting 0\n",
    trace: "machine 0 1 front\n\
         \x20        1      1 post                      -          1 cast\n\
         \x20        2      - turn                      0          1 cast locked locked finished 0 0 1\n\
         \x20        3      1 post                      -          3 cast\n\
         \x20        4      - turn                      0          3 cast locked open finished 0 0 1\n\
         summary posts 2 turns 2 finished 2 put_off 0\n",
    status: 0,
};

/// The buttons are as many as the code has digits, the last ones.
const LAST_BUTTONS: Worked = Worked {
    script: b"new a 12\nbutton a 3\nbutton a 1\nbutton a 2\n",
    output: "a locked buttons 0 waiting 0\n\
         a locked buttons 1 waiting 0\n\
         a locked buttons 2 waiting 0\n\
         a open buttons 0 waiting 0\n",
    trace: "machine 0 1 a\n\
         \x20        1      1 post                      -          1 cast\n\
         \x20        2      - turn                      0          1 cast locked locked finished 0 0 1\n\
         \x20        3      1 post                      -          3 cast\n\
         \x20        4      - turn                      0          3 cast locked locked finished 0 0 1\n\
         \x20        5      1 post                      -          5 cast\n\
         \x20        6      - turn                      0          5 cast locked open finished 0 0 1\n\
         summary posts 3 turns 3 finished 3 put_off 0\n",
    status: 0,
};

/// Lines that are refused or malformed, and a last line without a line feed.
const FAULTS: Worked = Worked {
    script: b"button back 1\nnew front 12\nnew front 34\npress front 1",
    output: "line 1 refused 8\n\
         front locked buttons 0 waiting 0\n\
         line 3 refused 7\n\
         line 4 malformed\n",
    trace: "machine 0 1 front\n\
         summary posts 0 turns 0 finished 0 put_off 0\n",
    status: 1,
};

/// Names stand in order of registration; blank lines and comments print nothing; carriage returns go.
const TWO_DOORS: Worked = Worked {
    script: b"new b 1\r\n  # doors\n\nnew a 2\n names  \nshow b\r",
    output: "b locked buttons 0 waiting 0\n\
         a locked buttons 0 waiting 0\n\
         names b a\n\
         b locked buttons 0 waiting 0\n",
    trace: "machine 0 1 b\n\
         summary posts 0 turns 0 finished 0 put_off 0\n\
         machine 1 2 a\n\
         summary posts 0 turns 0 finished 0 put_off 0\n",
    status: 0,
};

/// What waits is dropped at a stop, and then the door takes no button.
const STOPPING: Worked = Worked {
    script: b"new a 1\nbutton a 1\nbutton a 1\nstop a 7\nshow a\nbutton a 1\n",
    output: "a locked buttons 0 waiting 0\n\
         a open buttons 0 waiting 0\n\
         a open buttons 0 waiting 1\n\
         a stopped 7 word 0\n\
         a stopped 7 word 0\n\
         line 6 refused 2\n",
    trace: "machine 0 1 a\n\
         \x20        1      1 post                      -          1 cast\n\
         \x20        2      - turn                      0          1 cast locked open finished 0 0 1\n\
         \x20        3      1 post                      -          3 cast\n\
         \x20        4      - turn                      0          3 cast open open put_off 0 0 0\n\
         \x20        5      - stop                      -          7 word:0\n\
         summary posts 2 turns 2 finished 1 put_off 1\n",
    status: 1,
};

/// The last word is the number of buttons.
const LAST_WORD: Worked = Worked {
    script: b"new a 12\nbutton a 1\nstop a 7\n",
    output: "a locked buttons 0 waiting 0\n\
         a locked buttons 1 waiting 0\n\
         a stopped 7 word 1\n",
    trace: "machine 0 1 a\n\
         \x20        1      1 post                      -          1 cast\n\
         \x20        2      - turn                      0          1 cast locked locked finished 0 0 1\n\
         \x20        3      - stop                      -          7 word:1\n\
         summary posts 1 turns 1 finished 1 put_off 0\n",
    status: 0,
};

/// A button of an open door waits.
const POSTPONING: Worked = Worked {
    script: b"new front 12\nbutton front 1\nbutton front 2\nbutton front 1\n",
    output: "front locked buttons 0 waiting 0\n\
         front locked buttons 1 waiting 0\n\
         front open buttons 0 waiting 0\n\
         front open buttons 0 waiting 1\n",
    trace: "machine 0 1 front\n\
         \x20        1      1 post                      -          1 cast\n\
         \x20        2      - turn                      0          1 cast locked locked finished 0 0 1\n\
         \x20        3      1 post                      -          3 cast\n\
         \x20        4      - turn                      0          3 cast locked open finished 0 0 1\n\
         \x20        5      1 post                      -          5 cast\n\
         \x20        6      - turn                      0          5 cast open open put_off 0 0 0\n\
         summary posts 3 turns 3 finished 2 put_off 1\n",
    status: 0,
};

/// It waits until the door is locked again, and then counts.
pub const RETRYING: Worked = Worked {
    script: b"new front 12\n\
        button front 1\n\
        button front 2\n\
        button front 1\n\
        at 10000\n\
        show front\n\
        button front 2\n",
    output: "front locked buttons 0 waiting 0\n\
         front locked buttons 1 waiting 0\n\
         front open buttons 0 waiting 0\n\
         front open buttons 0 waiting 1\n\
         at 10000 expired 1\n\
         front locked buttons 1 waiting 0\n\
         front open buttons 0 waiting 0\n",
    trace: "machine 0 1 front\n\
         \x20        1      1 post                      -          1 cast\n\
         \x20        2      - turn                      0          1 cast locked locked finished 0 0 1\n\
         \x20        3      1 post                      -          3 cast\n\
         \x20        4      - turn                      0          3 cast locked open finished 0 0 1\n\
         \x20        5      1 post                      -          5 cast\n\
         \x20        6      - turn                      0          5 cast open open put_off 0 0 0\n\
         \x20        7      - tick                  10000          1 -\n\
         \x20        8      - turn                  10000          4 state_timeout open locked finished 0 0 0\n\
         \x20        9      - turn                  10000          5 cast locked locked finished 0 0 1\n\
         \x20       10      1 post                      -          7 cast\n\
         \x20       11      - turn                  10000          7 cast locked open finished 0 0 1\n\
         summary posts 4 turns 6 finished 5 put_off 1\n",
    status: 0,
};

/// The buttons of a locked door are forgotten 30,000 milliseconds after the last one.
const FORGETTING: Worked = Worked {
    script: b"new a 12\nbutton a 1\nat 29999\nat 30000\nshow a\n",
    output: "a locked buttons 0 waiting 0\n\
         a locked buttons 1 waiting 0\n\
         at 29999 expired 0\n\
         at 30000 expired 1\n\
         a locked buttons 0 waiting 0\n",
    trace: "machine 0 1 a\n\
         \x20        1      1 post                      -          1 cast\n\
         \x20        2      - turn                      0          1 cast locked locked finished 0 0 1\n\
         \x20        3      - tick                  29999          0 -\n\
         \x20        4      - tick                  30000          1 -\n\
         \x20        5      - turn                  30000          2 timeout locked locked finished 0 0 0\n\
         summary posts 1 turns 2 finished 2 put_off 0\n",
    status: 0,
};

/// What a moment may be.
const MOMENTS: Worked = Worked {
    script: b"at 9223372036854775808\n\
        at 10\n\
        at 5\n\
        at 18446744073709551615\n\
        at 18446744073709551616\n\
        at 00000000000000000011\n\
        at 000000000000000000012\n\
        at\n\
        at 9223372036854775807\n",
    output: "line 1 refused 4\n\
         at 10 expired 0\n\
         at 10 expired 0\n\
         line 4 refused 4\n\
         line 5 malformed\n\
         at 11 expired 0\n\
         line 7 malformed\n\
         line 8 malformed\n\
         at 9223372036854775807 expired 0\n",
    trace: "",
    status: 1,
};

/// Each door that has not ended is ticked.
const THREE_DOORS: Worked = Worked {
    script: b"new a 12\n\
        new b 12\n\
        new c 12\n\
        button a 1\n\
        button b 1\n\
        button c 1\n\
        stop c 7\n\
        at 30000\n\
        show b\n\
        show c\n",
    output: "a locked buttons 0 waiting 0\n\
         b locked buttons 0 waiting 0\n\
         c locked buttons 0 waiting 0\n\
         a locked buttons 1 waiting 0\n\
         b locked buttons 1 waiting 0\n\
         c locked buttons 1 waiting 0\n\
         c stopped 7 word 1\n\
         at 30000 expired 2\n\
         b locked buttons 0 waiting 0\n\
         c stopped 7 word 1\n",
    trace: "machine 0 1 a\n\
         \x20        1      1 post                      -          1 cast\n\
         \x20        2      - turn                      0          1 cast locked locked finished 0 0 1\n\
         \x20        3      - tick                  30000          1 -\n\
         \x20        4      - turn                  30000          2 timeout locked locked finished 0 0 0\n\
         summary posts 1 turns 2 finished 2 put_off 0\n\
         machine 1 2 b\n\
         \x20        1      1 post                      -          1 cast\n\
         \x20        2      - turn                      0          1 cast locked locked finished 0 0 1\n\
         \x20        3      - tick                  30000          1 -\n\
         \x20        4      - turn                  30000          2 timeout locked locked finished 0 0 0\n\
         summary posts 1 turns 2 finished 2 put_off 0\n\
         machine 2 3 c\n\
         \x20        1      1 post                      -          1 cast\n\
         \x20        2      - turn                      0          1 cast locked locked finished 0 0 1\n\
         \x20        3      - stop                      -          7 word:1\n\
         summary posts 1 turns 1 finished 1 put_off 0\n",
    status: 0,
};

/// What a reason may be, and what a door that has ended refuses.
const REASONS: Worked = Worked {
    script: b"new a 1\n\
        stop a 4294967296\n\
        stop a 00000000007\n\
        stop a +7\n\
        stop a\n\
        stop a 7 7\n\
        stop b 7\n\
        stop a 0000000007\n\
        stop a 7\n\
        new a 1\n\
        names\n\
        new b 1\n\
        stop b 4294967295\n",
    output: "a locked buttons 0 waiting 0\n\
         line 2 malformed\n\
         line 3 malformed\n\
         line 4 malformed\n\
         line 5 malformed\n\
         line 6 malformed\n\
         line 7 refused 8\n\
         a stopped 7 word 0\n\
         line 9 refused 2\n\
         line 10 refused 7\n\
         names a\n\
         b locked buttons 0 waiting 0\n\
         b stopped 4294967295 word 0\n",
    trace: "machine 0 1 a\n\
         \x20        1      - stop                      -          7 word:0\n\
         summary posts 0 turns 0 finished 0 put_off 0\n\
         machine 1 2 b\n\
         \x20        1      - stop                      - 4294967295 word:0\n\
         summary posts 0 turns 0 finished 0 put_off 0\n",
    status: 1,
};

/// A door says how long its code is; a call is an event, and so the buttons are not forgotten.
const ASKING: Worked = Worked {
    script: b"new a 12\nbutton a 1\nlength a\nat 30000\nshow a\n",
    output: "a locked buttons 0 waiting 0\n\
         a locked buttons 1 waiting 0\n\
         a length 2\n\
         at 30000 expired 0\n\
         a locked buttons 1 waiting 0\n",
    trace: "machine 0 1 a\n\
         \x20        1      1 post                      -          1 cast\n\
         \x20        2      - turn                      0          1 cast locked locked finished 0 0 1\n\
         \x20        3      1 post                      -          3 call\n\
         \x20        4      - turn                      0          3 call locked locked finished 1 0 0\n\
         \x20        5      - collect                   -          3 reply\n\
         \x20        6      - tick                  30000          0 -\n\
         summary posts 2 turns 2 finished 2 put_off 0\n",
    status: 0,
};

/// How long codes are, also of open doors, and which lengths are refused or malformed.
const LENGTHS: Worked = Worked {
    script: b"length a\n\
        new a 1\n\
        new b 1234567890123456\n\
        length b\n\
        length a\n\
        button a 1\n\
        length a\n\
        length\n\
        length a b\n\
        stop b 7\n\
        length b\n\
        at 10000\n\
        length a\n",
    output: "line 1 refused 8\n\
         a locked buttons 0 waiting 0\n\
         b locked buttons 0 waiting 0\n\
         b length 16\n\
         a length 1\n\
         a open buttons 0 waiting 0\n\
         a length 1\n\
         line 8 malformed\n\
         line 9 malformed\n\
         b stopped 7 word 0\n\
         line 11 refused 2\n\
         at 10000 expired 1\n\
         a length 1\n",
    trace: "machine 0 1 a\n\
         \x20        1      1 post                      -          1 call\n\
         \x20        2      - turn                      0          1 call locked locked finished 1 0 0\n\
         \x20        3      - collect                   -          1 reply\n\
         \x20        4      1 post                      -          2 cast\n\
         \x20        5      - turn                      0          2 cast locked open finished 0 0 1\n\
         \x20        6      1 post                      -          4 call\n\
         \x20        7      - turn                      0          4 call open open finished 1 0 0\n\
         \x20        8      - collect                   -          4 reply\n\
         \x20        9      - tick                  10000          1 -\n\
         \x20       10      - turn                  10000          3 state_timeout open locked finished 0 0 0\n\
         \x20       11      1 post                      -          5 call\n\
         \x20       12      - turn                  10000          5 call locked locked finished 1 0 0\n\
         \x20       13      - collect                   -          5 reply\n\
         summary posts 4 turns 5 finished 5 put_off 0\n\
         machine 1 2 b\n\
         \x20        1      1 post                      -          1 call\n\
         \x20        2      - turn                      0          1 call locked locked finished 1 0 0\n\
         \x20        3      - collect                   -          1 reply\n\
         \x20        4      - stop                      -          7 word:0\n\
         summary posts 1 turns 1 finished 1 put_off 0\n",
    status: 1,
};

/// Lines that are refused, each for its reason, and what is no form; none of them changes anything.
const REFUSALS: Worked = Worked {
    script: b"button back 1\n\
        new front 12\n\
        new front 34\n\
        at 9223372036854775808\n\
        press front 1\n\
        stop front 7\n\
        button front 1\n\
        new front 34\n\
        remove front\n\
        names\n\
        new front 34\n",
    output: "line 1 refused 8\n\
         front locked buttons 0 waiting 0\n\
         line 3 refused 7\n\
         line 4 refused 4\n\
         line 5 malformed\n\
         front stopped 7 word 0\n\
         line 7 refused 2\n\
         line 8 refused 7\n\
         front removed\n\
         names\n\
         front locked buttons 0 waiting 0\n",
    trace: "machine 0 2 front\n\
         summary posts 0 turns 0 finished 0 put_off 0\n",
    status: 1,
};

/// A door that has ended is removed; its name is free then, and the others keep their order, their moments and what they
/// were.
const REMOVING: Worked = Worked {
    script: b"new a 1\n\
        new b 2\n\
        new c 3\n\
        remove a\n\
        stop b 5\n\
        remove b\n\
        names\n\
        remove b\n\
        remove\n\
        remove b c\n\
        remove B\n\
        new b 4\n\
        names\n\
        button c 3\n\
        stop a 1\n\
        remove a\n\
        show c\n\
        at 10000\n\
        show c\n\
        names\n",
    output: "a locked buttons 0 waiting 0\n\
         b locked buttons 0 waiting 0\n\
         c locked buttons 0 waiting 0\n\
         line 4 refused 10\n\
         b stopped 5 word 0\n\
         b removed\n\
         names a c\n\
         line 8 refused 8\n\
         line 9 malformed\n\
         line 10 malformed\n\
         line 11 malformed\n\
         b locked buttons 0 waiting 0\n\
         names a c b\n\
         c open buttons 0 waiting 0\n\
         a stopped 1 word 0\n\
         a removed\n\
         c open buttons 0 waiting 0\n\
         at 10000 expired 1\n\
         c locked buttons 0 waiting 0\n\
         names c b\n",
    trace: "machine 2 3 c\n\
         \x20        1      1 post                      -          1 cast\n\
         \x20        2      - turn                      0          1 cast locked open finished 0 0 1\n\
         \x20        3      - tick                  10000          1 -\n\
         \x20        4      - turn                  10000          2 state_timeout open locked finished 0 0 0\n\
         summary posts 1 turns 2 finished 2 put_off 0\n\
         machine 1 4 b\n\
         \x20        1      - tick                  10000          0 -\n\
         summary posts 0 turns 0 finished 0 put_off 0\n",
    status: 1,
};

/// A door sends a button to another.
const RELAYING: Worked = Worked {
    script: b"new a 12\n\
        new b 34\n\
        relay a b 3\n",
    output: "a locked buttons 0 waiting 0\n\
         b locked buttons 0 waiting 0\n\
         b locked buttons 1 waiting 0\n",
    trace: "machine 0 1 a\n\
         \x20        1      1 post                      -          1 cast\n\
         \x20        2      - turn                      0          1 cast locked locked finished 0 0 0 sent 1\n\
         \x20        3      - take                      -          1 to 1 2\n\
         summary posts 1 turns 1 finished 1 put_off 0\n\
         machine 1 2 b\n\
         \x20        1      - post                      -          1 info from 0 1 1\n\
         \x20        2      - turn                      0          1 info locked locked finished 0 0 1\n\
         summary posts 1 turns 1 finished 1 put_off 0\n",
    status: 0,
};

/// Doors send buttons to each other and to themselves: an open door's waits, and one that has ended loses it.
const RELAYS: Worked = Worked {
    script: b"new a 12\n\
        new b 3\n\
        relay b a 1\n\
        relay a a 2\n\
        relay b a 1\n\
        stop b 7\n\
        relay a b 3\n\
        relay b a 1\n\
        relay a c 1\n\
        relay c a 1\n\
        relay a b\n\
        relay a b 10\n\
        relay a b +1\n\
        relay A b 1\n\
        relay a B 1\n\
        relay a b 1 1\n\
        at 10000\n\
        show a\n",
    output: "a locked buttons 0 waiting 0\n\
         b locked buttons 0 waiting 0\n\
         a locked buttons 1 waiting 0\n\
         a open buttons 0 waiting 0\n\
         a open buttons 0 waiting 1\n\
         b stopped 7 word 0\n\
         b stopped 7 word 0\n\
         line 8 refused 2\n\
         line 9 refused 8\n\
         line 10 refused 8\n\
         line 11 malformed\n\
         line 12 malformed\n\
         line 13 malformed\n\
         line 14 malformed\n\
         line 15 malformed\n\
         line 16 malformed\n\
         at 10000 expired 1\n\
         a locked buttons 1 waiting 0\n",
    trace: "machine 0 1 a\n\
         \x20        1      - post                      -          1 info from 1 2 1\n\
         \x20        2      - turn                      0          1 info locked locked finished 0 0 1\n\
         \x20        3      1 post                      -          3 cast\n\
         \x20        4      - turn                      0          3 cast locked locked finished 0 0 0 sent 1\n\
         \x20        5      - take                      -          1 to 0 1\n\
         \x20        6      - post                      -          4 info from 0 1 1\n\
         \x20        7      - turn                      0          4 info locked open finished 0 0 1\n\
         \x20        8      - post                      -          6 info from 1 2 2\n\
         \x20        9      - turn                      0          6 info open open put_off 0 0 0\n\
         \x20       10      1 post                      -          7 cast\n\
         \x20       11      - turn                      0          7 cast open open finished 0 0 0 sent 1\n\
         \x20       12      - take                      -          2 to 1 2\n\
         \x20       13      - tick                  10000          1 -\n\
         \x20       14      - turn                  10000          5 state_timeout open locked finished 0 0 0\n\
         \x20       15      - turn                  10000          6 info locked locked finished 0 0 1\n\
         summary posts 5 turns 7 finished 6 put_off 1\n\
         machine 1 2 b\n\
         \x20        1      1 post                      -          1 cast\n\
         \x20        2      - turn                      0          1 cast locked locked finished 0 0 0 sent 1\n\
         \x20        3      - take                      -          1 to 0 1\n\
         \x20        4      1 post                      -          2 cast\n\
         \x20        5      - turn                      0          2 cast locked locked finished 0 0 0 sent 1\n\
         \x20        6      - take                      -          2 to 0 1\n\
         \x20        7      - stop                      -          7 word:0\n\
         summary posts 2 turns 2 finished 2 put_off 0\n",
    status: 1,
};

/// All of them.
pub static ALL: [Worked; 19] = [
    EMPTY,
    OPENING,
    LAST_BUTTONS,
    FAULTS,
    TWO_DOORS,
    STOPPING,
    LAST_WORD,
    POSTPONING,
    RETRYING,
    FORGETTING,
    MOMENTS,
    THREE_DOORS,
    REASONS,
    ASKING,
    LENGTHS,
    REFUSALS,
    REMOVING,
    RELAYING,
    RELAYS,
];

/// A test of one of them.
fn shows_its_output(rt: &Host<impl Abort + Print + AllocGlobal>, worked: Worked) {
    shows(rt, worked.script, worked.output, worked.status);
}

#[test]
fn an_empty_script_prints_nothing(rt: HostRuntime) {
    let rt = Host::new(rt);
    shows_its_output(&rt, EMPTY);
}

#[test]
fn the_code_opens_the_door(rt: HostRuntime) {
    let rt = Host::new(rt);
    shows_its_output(&rt, OPENING);
}

#[test]
fn the_last_buttons_count(rt: HostRuntime) {
    let rt = Host::new(rt);
    shows_its_output(&rt, LAST_BUTTONS);
}

#[test]
fn refused_and_malformed_lines_are_told_by_number(rt: HostRuntime) {
    let rt = Host::new(rt);
    shows_its_output(&rt, FAULTS);
}

#[test]
fn two_doors_stand_in_order(rt: HostRuntime) {
    let rt = Host::new(rt);
    shows_its_output(&rt, TWO_DOORS);
}

#[test]
fn a_stop_drops_what_waits_and_ends_the_door(rt: HostRuntime) {
    let rt = Host::new(rt);
    shows_its_output(&rt, STOPPING);
}

#[test]
fn a_stopped_door_tells_how_many_buttons_it_had(rt: HostRuntime) {
    let rt = Host::new(rt);
    shows_its_output(&rt, LAST_WORD);
}

#[test]
fn a_button_of_an_open_door_waits(rt: HostRuntime) {
    let rt = Host::new(rt);
    shows_its_output(&rt, POSTPONING);
}

#[test]
fn a_postponed_button_counts_once_the_door_is_locked(rt: HostRuntime) {
    let rt = Host::new(rt);
    shows_its_output(&rt, RETRYING);
}

#[test]
fn buttons_are_forgotten_after_30000_milliseconds(rt: HostRuntime) {
    let rt = Host::new(rt);
    shows_its_output(&rt, FORGETTING);
}

#[test]
fn moments_go_on(rt: HostRuntime) {
    let rt = Host::new(rt);
    shows_its_output(&rt, MOMENTS);
}

#[test]
fn every_door_that_runs_is_ticked(rt: HostRuntime) {
    let rt = Host::new(rt);
    shows_its_output(&rt, THREE_DOORS);
}

#[test]
fn reasons_are_numbers(rt: HostRuntime) {
    let rt = Host::new(rt);
    shows_its_output(&rt, REASONS);
}

#[test]
fn a_call_is_an_event_of_the_door(rt: HostRuntime) {
    let rt = Host::new(rt);
    shows_its_output(&rt, ASKING);
}

#[test]
fn each_door_says_how_long_its_code_is(rt: HostRuntime) {
    let rt = Host::new(rt);
    shows_its_output(&rt, LENGTHS);
}

#[test]
fn each_refusal_has_its_number(rt: HostRuntime) {
    let rt = Host::new(rt);
    shows_its_output(&rt, REFUSALS);
}

#[test]
fn a_door_that_has_ended_is_removed(rt: HostRuntime) {
    let rt = Host::new(rt);
    shows_its_output(&rt, REMOVING);
}
