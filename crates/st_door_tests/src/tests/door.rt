//! The door's callbacks, called as a machine calls them, row by row.

use super::digits::{digits, has_digits};
use super::host::{Host, holds, same};
use st_door::{
    Action, Actions, Digits, Door, DoorContent, DoorData, DoorState, EnterAction, EnterActions,
    EnterOutcome, Init, Kind, MachineId, Module, Outcome, Reason, Tag, Time, Timer,
};
use std::alloc::{AllocError, Global};
use std::io::Print;
use std::process::Abort;

/// What a door answers to a start.
type Started = Init<DoorState, DoorData, DoorContent>;

/// What a door answers to an event.
type Handled = Outcome<DoorState, DoorData, DoorContent>;

/// What a door answers where a state is entered.
type Entered = EnterOutcome<DoorData, DoorContent>;

/// The answer to a start. A call that finds no memory is made again.
fn started(rt: &Host<impl Abort>, alloc: Global, code: &Digits) -> Result<Started, AllocError> {
    match Door.init(alloc, code) {
        Err(AllocError) => {
            rt.retry();
            Door.init(alloc, code)
        }
        answer => answer,
    }
}

/// The answer to an event. A call that finds no memory is made again.
fn handled(
    rt: &Host<impl Abort>,
    alloc: Global,
    kind: Kind,
    content: &DoorContent,
    state: DoorState,
    held: &DoorData,
) -> Result<Handled, AllocError> {
    match Door.handle(alloc, kind, content, state, held) {
        Err(AllocError) => {
            rt.retry();
            Door.handle(alloc, kind, content, state, held)
        }
        answer => answer,
    }
}

/// The answer where a state is entered. A call that finds no memory is made again.
fn entered(
    rt: &Host<impl Abort>,
    alloc: Global,
    old: DoorState,
    state: DoorState,
    held: &DoorData,
) -> Result<Entered, AllocError> {
    match Door.enter(alloc, old, state, held) {
        Err(AllocError) => {
            rt.retry();
            Door.enter(alloc, old, state, held)
        }
        answer => answer,
    }
}

/// A copy of a content. A call that finds no memory is made again.
fn copied_content(
    rt: &Host<impl Abort>,
    alloc: Global,
    content: &DoorContent,
) -> Result<DoorContent, AllocError> {
    match Door.copy_content(alloc, content) {
        Err(AllocError) => {
            rt.retry();
            Door.copy_content(alloc, content)
        }
        answer => answer,
    }
}

/// A copy of the data. A call that finds no memory is made again.
fn copied_data(
    rt: &Host<impl Abort>,
    alloc: Global,
    held: &DoorData,
) -> Result<DoorData, AllocError> {
    match Door.copy_data(alloc, held) {
        Err(AllocError) => {
            rt.retry();
            Door.copy_data(alloc, held)
        }
        answer => answer,
    }
}

/// The code of each door here.
const CODE: &[u8] = &[1, 2];

/// A door's data with this code and these buttons.
fn data_with(rt: &Host<impl Abort>, alloc: Global, buttons: &[u8]) -> DoorData {
    let code = digits(rt, alloc, CODE);
    let buttons = digits(rt, alloc, buttons);
    DoorData { code, buttons }
}

/// The actions of an answer, where there is one at most.
#[derive(Clone, Copy, PartialEq, Eq)]
enum Asked {
    Nothing,
    Sets(Timer, Time, DoorContent),
    Postpones,
    Replies(Tag, DoorContent),
    Sends(MachineId, DoorContent),
    Else,
}

/// An answer but for its data.
#[derive(Clone, Copy, PartialEq, Eq)]
enum Answer {
    /// The next state, and its data.
    Goes(DoorState, Asked),
    /// The state stays, and has this data.
    Holds(Asked),
    /// State and data stay.
    Stays(Asked),
    Else,
}

/// The actions of an answer to an event.
fn action_of(actions: &Actions<DoorContent>) -> Asked {
    match (actions.len(), actions.get(0)) {
        (0, _) => Asked::Nothing,
        (1, Some(Action::Set(timer, time, content))) => Asked::Sets(*timer, *time, *content),
        (1, Some(Action::Postpone(true))) => Asked::Postpones,
        (1, Some(Action::Reply(tag, content))) => Asked::Replies(*tag, *content),
        (1, Some(Action::Send(target, content))) => Asked::Sends(*target, *content),
        _ => Asked::Else,
    }
}

/// The actions of an answer to an enter call.
fn enter_action_of(actions: &EnterActions<DoorContent>) -> Asked {
    match (actions.len(), actions.get(0)) {
        (0, _) => Asked::Nothing,
        (1, Some(EnterAction::Set(timer, time, content))) => Asked::Sets(*timer, *time, *content),
        _ => Asked::Else,
    }
}

/// What is shown, an event at a door with these buttons, its answer, and the buttons of its data, if it has some.
#[derive(Clone, Copy)]
struct Row {
    word: &'static str,
    kind: Kind,
    content: DoorContent,
    state: DoorState,
    buttons: &'static [u8],
    answer: Answer,
    after: &'static [u8],
}

/// Sees that data has the code and these buttons.
fn has(rt: &Host<impl Abort>, held: &DoorData, buttons: &[u8]) {
    has_digits(rt, &held.code, CODE);
    has_digits(rt, &held.buttons, buttons);
}

/// An answer to an event, where its data has the code and these buttons.
fn answer_of(rt: &Host<impl Abort>, outcome: &Handled, buttons: &[u8]) -> Answer {
    match outcome {
        Outcome::NextState(state, held, actions) => {
            has(rt, held, buttons);
            Answer::Goes(*state, action_of(actions))
        }
        Outcome::KeepStateAndData(actions) => Answer::Stays(action_of(actions)),
        _ => Answer::Else,
    }
}

/// Sees that a door answers an event as its row says.
fn answers(rt: &Host<impl Abort>, alloc: Global, row: Row) {
    let held = data_with(rt, alloc, row.buttons);
    let outcome = handled(rt, alloc, row.kind, &row.content, row.state, &held);
    let answer = answer_of(rt, &outcome.expect(rt, "memory"), row.after);
    holds(rt, row.word, answer == row.answer);
}

/// A test of these rows.
fn all_answer(rt: &Host<impl Abort + Print + AllocGlobal>, rows: &[Row]) {
    for row in rows {
        answers(rt, rt.alloc(), *row);
    }
    rt.end();
}

/// An answer to an enter call, where its data has the code and these buttons.
fn enter_answer_of(rt: &Host<impl Abort>, outcome: &Entered, buttons: &[u8]) -> Answer {
    match outcome {
        EnterOutcome::KeepState(held, actions) => {
            has(rt, held, buttons);
            Answer::Holds(enter_action_of(actions))
        }
        EnterOutcome::KeepStateAndData(actions) => Answer::Stays(enter_action_of(actions)),
        _ => Answer::Else,
    }
}

/// Sees what a door with these buttons answers where a state is entered. Where it has data, that has no
/// button.
fn enters(
    rt: &Host<impl Abort>,
    alloc: Global,
    word: &str,
    old: DoorState,
    state: DoorState,
    buttons: &[u8],
    wanted: Answer,
) {
    let held = data_with(rt, alloc, buttons);
    let outcome = entered(rt, alloc, old, state, &held).expect(rt, "memory");
    let answer = enter_answer_of(rt, &outcome, &[]);
    holds(rt, word, answer == wanted);
}

/// A request.
const TAG: Tag = Tag {
    machine: MachineId { slot: 3, serial: 4 },
    request: 5,
};

/// Sees that a start leads to a locked door with no button, and asks for nothing.
fn is_locked(rt: &Host<impl Abort>, begun: &Started) {
    match begun {
        Init::Ok(state, held, actions) => {
            same(rt, "the first state", state, &DoorState::Locked);
            has(rt, held, &[]);
            holds(rt, "nothing is asked for", actions.is_empty());
        }
        _ => panic!(rt; "no door"),
    }
}

#[test]
fn a_door_begins_locked(rt: HostRuntime) {
    let rt = Host::new(rt);
    let code = digits(&rt, rt.alloc(), CODE);
    let begun = started(&rt, rt.alloc(), &code).expect(&rt, "memory");
    drop(code);
    is_locked(&rt, &begun);
    drop(begun);
    rt.end();
}

/// A button at a locked door with these buttons, which goes to a state with those.
fn button(
    word: &'static str,
    digit: u8,
    buttons: &'static [u8],
    state: DoorState,
    after: &'static [u8],
    asked: Asked,
) -> Row {
    Row {
        word,
        kind: Kind::Cast,
        content: DoorContent::Button(digit),
        state: DoorState::Locked,
        buttons,
        answer: Answer::Goes(state, asked),
        after,
    }
}

#[test]
fn a_button_counts_for_30000_milliseconds_while_the_door_is_locked(rt: HostRuntime) {
    let rt = Host::new(rt);
    let time = Time::After(30_000);
    let asked = Asked::Sets(Timer::Event, time, DoorContent::Nothing);
    let rows = [
        button("the first", 1, &[], DoorState::Locked, &[1], asked),
        button("the second", 2, &[2], DoorState::Locked, &[2, 2], asked),
        button("the third", 9, &[2, 1], DoorState::Locked, &[1, 9], asked),
        button("a right one", 1, &[3, 3], DoorState::Locked, &[3, 1], asked),
    ];
    all_answer(&rt, &rows);
}

#[test]
fn the_last_digit_of_the_code_opens_the_door(rt: HostRuntime) {
    let rt = Host::new(rt);
    let rows = [
        button("the code", 2, &[1], DoorState::Open, &[], Asked::Nothing),
        button("its end", 2, &[3, 1], DoorState::Open, &[], Asked::Nothing),
    ];
    all_answer(&rt, &rows);
}

#[test]
fn a_button_of_an_open_door_is_postponed(rt: HostRuntime) {
    let rt = Host::new(rt);
    for digit in [1, 2] {
        let row = Row {
            word: "each digit is postponed",
            kind: Kind::Cast,
            content: DoorContent::Button(digit),
            state: DoorState::Open,
            buttons: &[],
            answer: Answer::Stays(Asked::Postpones),
            after: &[],
        };
        answers(&rt, rt.alloc(), row);
    }
    rt.end();
}

/// The time-out of a timer at a door with the button 1.
fn time_out(
    word: &'static str,
    timer: Timer,
    state: DoorState,
    answer: Answer,
    after: &'static [u8],
) -> Row {
    Row {
        word,
        kind: Kind::Timeout(timer),
        content: DoorContent::Nothing,
        state,
        buttons: &[1],
        answer,
        after,
    }
}

#[test]
fn a_timeout_locks_the_door_or_forgets_its_buttons(rt: HostRuntime) {
    let rt = Host::new(rt);
    let (locked, open) = (DoorState::Locked, DoorState::Open);
    let locks = Answer::Goes(locked, Asked::Nothing);
    let stays = Answer::Stays(Asked::Nothing);
    let rows = [
        time_out("it forgets", Timer::Event, locked, locks, &[]),
        time_out("it locks", Timer::State, open, locks, &[1]),
        time_out("open, of the event", Timer::Event, open, stays, &[]),
        time_out("locked, of the state", Timer::State, locked, stays, &[]),
        time_out("locked, named", Timer::Named(0), locked, stays, &[]),
        time_out("open, named", Timer::Named(1), open, stays, &[]),
    ];
    all_answer(&rt, &rows);
}

#[test]
fn a_locked_door_is_entered_with_no_button(rt: HostRuntime) {
    let rt = Host::new(rt);
    let (locked, open) = (DoorState::Locked, DoorState::Open);
    let wanted = Answer::Holds(Asked::Nothing);
    holds(&rt, "a door has enter calls", Door.enters());
    let rows = [
        ("at the start", locked, [].as_slice()),
        ("with no button", open, &[]),
        ("with two buttons", open, &[2, 1]),
    ];
    for (word, old, buttons) in rows {
        enters(&rt, rt.alloc(), word, old, locked, buttons, wanted);
    }
    rt.end();
}

#[test]
fn an_open_door_is_entered_for_10000_milliseconds(rt: HostRuntime) {
    let rt = Host::new(rt);
    let time = Time::After(10_000);
    let asked = Asked::Sets(Timer::State, time, DoorContent::Nothing);
    let wanted = Answer::Stays(asked);
    let (locked, open) = (DoorState::Locked, DoorState::Open);
    enters(&rt, rt.alloc(), "it opens", locked, open, &[], wanted);
    rt.end();
}

#[test]
fn a_call_is_told_how_long_the_code_is(rt: HostRuntime) {
    let rt = Host::new(rt);
    for state in [DoorState::Locked, DoorState::Open] {
        let row = Row {
            word: "each state replies",
            kind: Kind::Call(TAG),
            content: DoorContent::CodeLength,
            state,
            buttons: &[1],
            answer: Answer::Stays(Asked::Replies(TAG, DoorContent::Length(2))),
            after: &[],
        };
        answers(&rt, rt.alloc(), row);
    }
    rt.end();
}

#[test]
fn a_button_that_another_door_sent_is_as_one_that_is_cast(rt: HostRuntime) {
    let rt = Host::new(rt);
    let time = Time::After(30_000);
    let asked = Asked::Sets(Timer::Event, time, DoorContent::Nothing);
    let (locked, open) = (DoorState::Locked, DoorState::Open);
    let rows = [
        button("the first", 1, &[], locked, &[1], asked),
        button("the code", 2, &[1], open, &[], Asked::Nothing),
        Row {
            state: open,
            answer: Answer::Stays(Asked::Postpones),
            ..button("it is postponed", 2, &[], open, &[], asked)
        },
    ];
    for row in rows {
        let kind = Kind::Info;
        answers(&rt, rt.alloc(), Row { kind, ..row });
    }
    rt.end();
}

/// A machine that buttons are sent to.
const TARGET: MachineId = MachineId { slot: 6, serial: 7 };

#[test]
fn a_button_that_is_to_be_relayed_is_sent_on(rt: HostRuntime) {
    let rt = Host::new(rt);
    for state in [DoorState::Locked, DoorState::Open] {
        let row = Row {
            word: "each state sends",
            kind: Kind::Cast,
            content: DoorContent::Relay(TARGET, 8),
            state,
            buttons: &[1],
            answer: Answer::Stays(Asked::Sends(TARGET, DoorContent::Button(8))),
            after: &[],
        };
        answers(&rt, rt.alloc(), row);
    }
    rt.end();
}

/// What changes nothing in any state.
const ELSE: &[(&str, Kind, DoorContent)] = &[
    (
        "a button as a call",
        Kind::Call(TAG),
        DoorContent::Button(1),
    ),
    (
        "a length as a call",
        Kind::Call(TAG),
        DoorContent::Length(1),
    ),
    ("nothing as a call", Kind::Call(TAG), DoorContent::Nothing),
    ("a question as a cast", Kind::Cast, DoorContent::CodeLength),
    ("a length as a cast", Kind::Cast, DoorContent::Length(1)),
    ("nothing as a cast", Kind::Cast, DoorContent::Nothing),
    (
        "a relay as a call",
        Kind::Call(TAG),
        DoorContent::Relay(TARGET, 1),
    ),
    (
        "a relay as an info",
        Kind::Info,
        DoorContent::Relay(TARGET, 1),
    ),
    ("a question as an info", Kind::Info, DoorContent::CodeLength),
    ("a length as an info", Kind::Info, DoorContent::Length(1)),
    ("nothing as an info", Kind::Info, DoorContent::Nothing),
    (
        "an inserted relay",
        Kind::Internal,
        DoorContent::Relay(TARGET, 1),
    ),
    ("an inserted button", Kind::Internal, DoorContent::Button(1)),
];

/// An event that changes nothing, at a door with the button 1.
fn unchanging(word: &'static str, kind: Kind, content: DoorContent, state: DoorState) -> Row {
    Row {
        word,
        kind,
        content,
        state,
        buttons: &[1],
        answer: Answer::Stays(Asked::Nothing),
        after: &[],
    }
}

#[test]
fn all_else_changes_nothing(rt: HostRuntime) {
    let rt = Host::new(rt);
    for (word, kind, content) in ELSE {
        for state in [DoorState::Locked, DoorState::Open] {
            let row = unchanging(word, *kind, *content, state);
            answers(&rt, rt.alloc(), row);
        }
    }
    rt.end();
}

/// Sees what the last word is of a door that had these buttons.
fn has_last_word(
    rt: &Host<impl Abort>,
    alloc: Global,
    reason: Reason,
    state: DoorState,
    buttons: &[u8],
    word: u32,
) {
    let held = data_with(rt, alloc, buttons);
    let last = Door.terminate(reason, state, &held);
    drop(held);
    same(rt, "the last word", &last, &word);
}

#[test]
fn the_last_word_counts_the_buttons(rt: HostRuntime) {
    let rt = Host::new(rt);
    let rows = [
        (7, DoorState::Locked, [].as_slice(), 0),
        (0, DoorState::Locked, &[1], 1),
        (Reason::MAX, DoorState::Locked, &[9, 1], 2),
        (7, DoorState::Open, &[], 0),
    ];
    for (reason, state, buttons, word) in rows {
        has_last_word(&rt, rt.alloc(), reason, state, buttons, word);
    }
    rt.end();
}

/// Sees that the copy of a content is equal to it.
fn has_equal_copy(rt: &Host<impl Abort>, alloc: Global, content: DoorContent) {
    let copy = copied_content(rt, alloc, &content).expect(rt, "memory");
    holds(rt, "the copy is equal", copy == content);
}

#[test]
fn copies_are_equal(rt: HostRuntime) {
    let rt = Host::new(rt);
    has_equal_copy(&rt, rt.alloc(), DoorContent::Button(7));
    has_equal_copy(&rt, rt.alloc(), DoorContent::Length(16));
    has_equal_copy(&rt, rt.alloc(), DoorContent::Relay(TARGET, 3));
    let held = data_with(&rt, rt.alloc(), &[1]);
    let copy = copied_data(&rt, rt.alloc(), &held);
    drop(held);
    let copy = copy.expect(&rt, "memory");
    has(&rt, &copy, &[1]);
    drop(copy);
    rt.end();
}
