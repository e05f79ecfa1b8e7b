//! Tests of st_actions: what lists ask for, with memory and while an allocation is refused.
mod counted;
mod joined;

use super::host::{Host, got, holds, is_count, same};
use st_actions::{Planned, plan, plan_enter};
use st_events::{
    Action, Actions, Asked, Decision, EnterAction, EnterActions, Insert, Kind, MachineId, Tag,
    Time, Timer,
};
use std::alloc::Global;
use std::process::Abort;

/// The machine that is asked.
const ASKED: MachineId = MachineId { slot: 2, serial: 5 };

/// The first request.
const FIRST: Tag = Tag {
    machine: ASKED,
    request: 1,
};

/// The second request.
const SECOND: Tag = Tag {
    machine: ASKED,
    request: 2,
};

/// A machine to which something is sent.
const NEAR: MachineId = MachineId { slot: 4, serial: 1 };

/// Another one.
const FAR: MachineId = MachineId { slot: 6, serial: 1 };

/// Forty letters that set thirteen timers.
static FORTY: [char; 40] = [
    'A', 'B', 'C', 'D', 'E', 'F', 'X', 'G', 'A', 'B', 'H', 'C', 'I', 'E', 'D', 'J', 'A', 'X', 'B',
    'B', 'F', 'K', 'C', 'A', 'H', 'L', 'G', 'E', 'A', 'I', 'C', 'X', 'J', 'D', 'B', 'A', 'X', 'L',
    'A', 'E',
];

/// The timer that a capital letter names: `E` is the event's, `X` the state's, and each other has its code for a
/// name.
fn timer(letter: char) -> Timer {
    match letter {
        'E' => Timer::Event,
        'X' => Timer::State,
        _ => Timer::Named(letter as u32),
    }
}

/// The action that a letter at a place of a list names: `r` and `s` reply 10 and 20 to the requests 1 and 2, `p` and `k`
/// say that the event is postponed and that it is not, `i` and `t` insert 30 and 40, `1` and `2` set the
/// named timers 1 and 2 for as many milliseconds, `9` sets the timer 1 for 9, `0` stops it by its time, `e` and `x`
/// set the event and the state time-out, `c` and `d` cancel the timer 1 and the state time-out, `u` and `v` update them
/// to 110 and 120, `m` and `n` send 130 and 140 to the machines in the slots 4 and 6, a capital letter sets its timer for
/// 4, with its place as the content, and every other hibernates.
fn action(place: usize, letter: char) -> Action<u64> {
    match letter {
        'r' => Action::Reply(FIRST, 10),
        's' => Action::Reply(SECOND, 20),
        'p' => Action::Postpone(true),
        'k' => Action::Postpone(false),
        'i' => Action::NextEvent(Kind::Internal, 30),
        't' => Action::NextEvent(Kind::Timeout(Timer::State), 40),
        '1' => Action::Set(Timer::Named(1), Time::After(1), 50),
        '2' => Action::Set(Timer::Named(2), Time::After(2), 60),
        '9' => Action::Set(Timer::Named(1), Time::After(9), 70),
        '0' => Action::Set(Timer::Named(1), Time::Infinity, 80),
        'e' => Action::Set(Timer::Event, Time::After(0), 90),
        'x' => Action::Set(Timer::State, Time::After(3), 100),
        'c' => Action::Cancel(Timer::Named(1)),
        'd' => Action::Cancel(Timer::State),
        'u' => Action::Update(Timer::Named(1), 110),
        'v' => Action::Update(Timer::State, 120),
        'm' => Action::Send(NEAR, 130),
        'n' => Action::Send(FAR, 140),
        'A'..='Z' => Action::Set(timer(letter), Time::After(4), place as u64),
        _ => Action::Hibernate,
    }
}

/// Says whether an action is the one that a letter at a place names.
fn is_action(found: &Action<u64>, place: usize, letter: char) -> bool {
    match (found, action(place, letter)) {
        (Action::Reply(tag, content), Action::Reply(other, wanted)) => {
            *tag == other && *content == wanted
        }
        (Action::Postpone(last), Action::Postpone(wanted)) => *last == wanted,
        (Action::NextEvent(kind, content), Action::NextEvent(other, wanted)) => {
            *kind == other && *content == wanted
        }
        (Action::Set(timer, time, content), Action::Set(other, other_time, wanted)) => {
            *timer == other && *time == other_time && *content == wanted
        }
        (Action::Cancel(timer), Action::Cancel(other)) => *timer == other,
        (Action::Update(timer, content), Action::Update(other, wanted)) => {
            *timer == other && *content == wanted
        }
        (Action::Send(target, content), Action::Send(other, wanted)) => {
            *target == other && *content == wanted
        }
        (Action::Hibernate, Action::Hibernate) => true,
        _ => false,
    }
}

/// A list of the actions that letters name. Where memory was refused, it is asked for again.
fn list(rt: &Host<impl Abort>, alloc: Global, letters: &[char]) -> Actions<u64> {
    let mut actions = Actions::new(alloc);
    for (place, letter) in letters.iter().enumerate() {
        if let Err(failed) = actions.push(action(place, *letter)) {
            rt.retry();
            let again = actions.push(failed.value);
            got(rt, "one allocation alone is refused", again);
        }
    }
    actions
}

/// Looks that a list has the actions that letters name, and no others.
fn has(rt: &impl Abort, actions: &Actions<u64>, letters: &[char]) {
    is_count(rt, "how many there are", actions.len(), letters.len());
    for (index, letter) in letters.iter().enumerate() {
        let found = actions.get(index).expect(rt, "there are so many");
        holds(rt, "the action", is_action(found, index, *letter));
    }
}

/// What letters ask for. A call that finds no memory gives the list back, and is made again.
fn planned(rt: &Host<impl Abort>, alloc: Global, letters: &[char]) -> Planned<u64> {
    match plan(alloc, list(rt, alloc, letters)) {
        Ok(planned) => planned,
        Err(failed) => {
            holds(rt, "four take no memory", letters.len() > 4);
            has(rt, &failed.value, letters);
            rt.retry();
            let again = plan(alloc, failed.value);
            got(rt, "one allocation alone is refused", again)
        }
    }
}

/// The enter call's action that a letter at a place names, as it names an action. Those that name none hibernate.
fn enter_action(place: usize, letter: char) -> EnterAction<u64> {
    match action(place, letter) {
        Action::Reply(tag, content) => EnterAction::Reply(tag, content),
        Action::Set(timer, time, content) => EnterAction::Set(timer, time, content),
        Action::Cancel(timer) => EnterAction::Cancel(timer),
        Action::Update(timer, content) => EnterAction::Update(timer, content),
        Action::Postpone(_) | Action::NextEvent(_, _) | Action::Send(_, _) | Action::Hibernate =>
            EnterAction::Hibernate,
    }
}

/// Says whether an enter call's action is the one that a letter at a place names.
fn is_enter_action(found: &EnterAction<u64>, place: usize, letter: char) -> bool {
    match (found, enter_action(place, letter)) {
        (EnterAction::Reply(tag, content), EnterAction::Reply(other, wanted)) => {
            *tag == other && *content == wanted
        }
        (EnterAction::Set(timer, time, content), EnterAction::Set(other, other_time, wanted)) => {
            *timer == other && *time == other_time && *content == wanted
        }
        (EnterAction::Cancel(timer), EnterAction::Cancel(other)) => *timer == other,
        (EnterAction::Update(timer, content), EnterAction::Update(other, wanted)) => {
            *timer == other && *content == wanted
        }
        (EnterAction::Hibernate, EnterAction::Hibernate) => true,
        _ => false,
    }
}

/// A list of the enter call's actions that letters name, as `list` makes one.
fn enter_list(rt: &Host<impl Abort>, alloc: Global, letters: &[char]) -> EnterActions<u64> {
    let mut actions = EnterActions::new(alloc);
    for (place, letter) in letters.iter().enumerate() {
        if let Err(failed) = actions.push(enter_action(place, *letter)) {
            rt.retry();
            let again = actions.push(failed.value);
            got(rt, "one allocation alone is refused", again);
        }
    }
    actions
}

/// Looks that a list has the enter call's actions that letters name, and no others.
fn enter_has(rt: &impl Abort, actions: &EnterActions<u64>, letters: &[char]) {
    is_count(rt, "how many there are", actions.len(), letters.len());
    for (index, letter) in letters.iter().enumerate() {
        let found = actions.get(index).expect(rt, "there are so many");
        holds(rt, "the action", is_enter_action(found, index, *letter));
    }
}

/// What letters ask for in an enter call. A call that finds no memory gives the list back, and is made
/// again.
fn entered(rt: &Host<impl Abort>, alloc: Global, letters: &[char]) -> Planned<u64> {
    match plan_enter(alloc, enter_list(rt, alloc, letters)) {
        Ok(planned) => planned,
        Err(failed) => {
            holds(rt, "four take no memory", letters.len() > 4);
            enter_has(rt, &failed.value, letters);
            rt.retry();
            let again = plan_enter(alloc, failed.value);
            got(rt, "one allocation alone is refused", again)
        }
    }
}

/// Looks that this reply is asked for.
fn is_reply(rt: &impl Abort, found: &(Tag, u64), wanted: &(Tag, u64)) {
    holds(rt, "the request", found.0 == wanted.0);
    holds(rt, "its reply", found.1 == wanted.1);
}

/// Looks that this insert is asked for.
fn is_insert(rt: &impl Abort, found: &Insert<u64>, wanted: &(Kind, u64)) {
    holds(rt, "the kind", found.kind == wanted.0);
    holds(rt, "its content", found.content == wanted.1);
}

/// Looks that this is asked of this timer.
fn is_setting(rt: &impl Abort, found: &st_events::Setting<u64>, wanted: &(Timer, Decision, u64)) {
    let (decision, content) = decided(&found.asked);
    holds(rt, "the timer", found.timer == wanted.0);
    holds(rt, "what is asked of it", decision == wanted.1);
    holds(rt, "the content", content == wanted.2);
}

/// Looks that this is to be sent to this machine.
fn is_send(rt: &impl Abort, found: &(MachineId, u64), wanted: &(MachineId, u64)) {
    holds(rt, "the machine", found.0 == wanted.0);
    holds(rt, "what is sent to it", found.1 == wanted.1);
}

/// What is asked of a timer, without the content, and the content, which is 0 where there is none.
fn decided(asked: &Asked<u64>) -> (Decision, u64) {
    match asked {
        Asked::Set(time, content) => (Decision::Set(*time), *content),
        Asked::Cancel => (Decision::Cancel, 0),
        Asked::Update(content) => (Decision::Update, *content),
    }
}

/// What is to be asked for: these replies, whether the event is postponed, these inserts, this of these timers, with
/// this content, which is 0 where there is none, and this to be sent to these machines.
#[derive(Clone, Copy)]
struct Wanted<'a> {
    replies: &'a [(Tag, u64)],
    postpone: bool,
    inserts: &'a [(Kind, u64)],
    settings: &'a [(Timer, Decision, u64)],
    sends: &'a [(MachineId, u64)],
}

/// Nothing is to be asked for.
const NOTHING: Wanted<'static> = Wanted {
    replies: &[],
    postpone: false,
    inserts: &[],
    settings: &[],
    sends: &[],
};

/// Looks that these replies are asked for, and no others.
fn replies(rt: &impl Abort, planned: &Planned<u64>, wanted: &[(Tag, u64)]) {
    is_count(rt, "how many replies", planned.replies.len(), wanted.len());
    for (index, other) in wanted.iter().enumerate() {
        let reply = planned.replies.get(index).expect(rt, "there are so many");
        is_reply(rt, reply, other);
    }
}

/// Looks that these inserts are asked for, and no others.
fn inserts(rt: &impl Abort, planned: &Planned<u64>, wanted: &[(Kind, u64)]) {
    is_count(rt, "how many inserts", planned.inserts.len(), wanted.len());
    for (index, other) in wanted.iter().enumerate() {
        let insert = planned.inserts.get(index).expect(rt, "there are so many");
        is_insert(rt, insert, other);
    }
}

/// Looks that this is asked of these timers, and no more.
fn settings(rt: &impl Abort, planned: &Planned<u64>, wanted: &[(Timer, Decision, u64)]) {
    is_count(
        rt,
        "how many settings",
        planned.requests.len(),
        wanted.len(),
    );
    for (index, other) in wanted.iter().enumerate() {
        let setting = planned.requests.get(index).expect(rt, "there are so many");
        is_setting(rt, setting, other);
    }
}

/// Looks that this is to be sent, and no more.
fn sends(rt: &impl Abort, planned: &Planned<u64>, wanted: &[(MachineId, u64)]) {
    is_count(rt, "how much is sent", planned.sends.len(), wanted.len());
    for (index, other) in wanted.iter().enumerate() {
        let send = planned.sends.get(index).expect(rt, "there is so much");
        is_send(rt, send, other);
    }
}

/// Looks that this is asked for, and nothing else.
fn asks(rt: &impl Abort, planned: &Planned<u64>, wanted: &Wanted) {
    replies(rt, planned, wanted.replies);
    holds(
        rt,
        "it is postponed, or not",
        planned.postpone == wanted.postpone,
    );
    inserts(rt, planned, wanted.inserts);
    settings(rt, planned, wanted.settings);
    sends(rt, planned, wanted.sends);
}

/// The same of a plan that nothing else is done with.
fn asks_alone(rt: &impl Abort, planned: Planned<u64>, wanted: &Wanted) {
    asks(rt, &planned, wanted);
    drop(planned);
}

/// Looks that this is asked of timers by a plan that nothing else is done with.
fn sets_alone(rt: &impl Abort, planned: Planned<u64>, wanted: &[(Timer, Decision, u64)]) {
    settings(rt, &planned, wanted);
    drop(planned);
}

/// Looks that the settings of these capital letters at these places are asked for, and no others.
fn places(rt: &impl Abort, planned: Planned<u64>, wanted: &[(char, u64)]) {
    is_count(
        rt,
        "how many settings",
        planned.requests.len(),
        wanted.len(),
    );
    for (index, (letter, place)) in wanted.iter().enumerate() {
        let setting = planned.requests.get(index).expect(rt, "there are so many");
        let (found, held) = decided(&setting.asked);
        holds(rt, "the timer", setting.timer == timer(*letter));
        holds(rt, "its time", found == Decision::Set(Time::After(4)));
        holds(rt, "its place", held == *place);
    }
    drop(planned);
}

/// Looks whether the event is postponed, at what letters ask for.
fn postpones(rt: &Host<impl Abort>, alloc: Global, letters: &[char], wanted: bool) {
    let found = planned(rt, alloc, letters);
    same(rt, "it is postponed", &found.postpone, &wanted);
    drop(found);
}

/// Replies and inserts keep their order, and inserts may be taken from the back.
fn an_order_is_kept(rt: &Host<impl Abort>, alloc: Global) {
    let mut seven = planned(rt, alloc, &['i', 'r', 'p', 'h', 't', 's', 'i']);
    static SEVEN: Wanted<'static> = Wanted {
        replies: &[(FIRST, 10), (SECOND, 20)],
        postpone: true,
        inserts: &[
            (Kind::Internal, 30),
            (Kind::Timeout(Timer::State), 40),
            (Kind::Internal, 30),
        ],
        ..NOTHING
    };
    asks(rt, &seven, &SEVEN);
    let last = seven.inserts.pop().expect(rt, "there are three");
    holds(rt, "the kind of the last", last.kind == Kind::Internal);
    holds(rt, "the content of the last", last.content == 30);
    static LEFT: [(Kind, u64); 2] = [(Kind::Internal, 30), (Kind::Timeout(Timer::State), 40)];
    inserts(rt, &seven, &LEFT);
    drop(seven);
}

#[test]
fn each_call_answers(rt: HostRuntime) {
    let rt = Host::new(rt);
    asks_alone(&rt, planned(&rt, rt.alloc(), &[]), &NOTHING);
    // The last postpone decides.
    postpones(&rt, rt.alloc(), &['p'], true);
    postpones(&rt, rt.alloc(), &['p', 'k'], false);
    postpones(&rt, rt.alloc(), &['k', 'p', 'h'], true);
    static BOTH: Wanted<'static> = Wanted {
        replies: &[(SECOND, 20), (FIRST, 10)],
        inserts: &[(Kind::Timeout(Timer::State), 40), (Kind::Internal, 30)],
        ..NOTHING
    };
    let both = planned(&rt, rt.alloc(), &['s', 't', 'r', 'i']);
    asks_alone(&rt, both, &BOTH);
    an_order_is_kept(&rt, rt.alloc());
    rt.end();
}

#[test]
fn the_last_setting_of_each_timer_decides(rt: HostRuntime) {
    let rt = Host::new(rt);
    let both = planned(&rt, rt.alloc(), &['1', '2']);
    static BOTH: [(Timer, Decision, u64); 2] = [
        (Timer::Named(1), Decision::Set(Time::After(1)), 50),
        (Timer::Named(2), Decision::Set(Time::After(2)), 60),
    ];
    sets_alone(&rt, both, &BOTH);

    // It stands where the last one stood, also where it stops the timer.
    let again = planned(&rt, rt.alloc(), &['1', '2', '9']);
    static AGAIN: [(Timer, Decision, u64); 2] = [
        (Timer::Named(2), Decision::Set(Time::After(2)), 60),
        (Timer::Named(1), Decision::Set(Time::After(9)), 70),
    ];
    sets_alone(&rt, again, &AGAIN);
    let stopped = planned(&rt, rt.alloc(), &['9', 'e', '0', 'x', 'p', 'e']);
    static STOPPED: Wanted<'static> = Wanted {
        postpone: true,
        settings: &[
            (Timer::Named(1), Decision::Set(Time::Infinity), 80),
            (Timer::State, Decision::Set(Time::After(3)), 100),
            (Timer::Event, Decision::Set(Time::After(0)), 90),
        ],
        ..NOTHING
    };
    asks_alone(&rt, stopped, &STOPPED);
    rt.end();
}

#[test]
fn refused_memory_changes_nothing(rt: HostRuntime) {
    let rt = Host::new(rt);
    static LETTERS: [char; 10] = ['r', 'i', 's', 'k', 'm', '1', 't', 'p', 'x', '9'];
    let ten = planned(&rt, rt.alloc(), &LETTERS);
    static TEN: Wanted<'static> = Wanted {
        replies: &[(FIRST, 10), (SECOND, 20)],
        postpone: true,
        inserts: &[(Kind::Internal, 30), (Kind::Timeout(Timer::State), 40)],
        settings: &[
            (Timer::State, Decision::Set(Time::After(3)), 100),
            (Timer::Named(1), Decision::Set(Time::After(9)), 70),
        ],
        sends: &[(NEAR, 130)],
    };
    asks_alone(&rt, ten, &TEN);
    rt.end();
}

#[test]
fn an_enter_call_replies_and_sets_timers(rt: HostRuntime) {
    let rt = Host::new(rt);
    asks_alone(&rt, entered(&rt, rt.alloc(), &[]), &NOTHING);

    let four = entered(&rt, rt.alloc(), &['x', 'h', 'r', 'e']);
    static FOUR: Wanted<'static> = Wanted {
        replies: &[(FIRST, 10)],
        settings: &[
            (Timer::State, Decision::Set(Time::After(3)), 100),
            (Timer::Event, Decision::Set(Time::After(0)), 90),
        ],
        ..NOTHING
    };
    asks_alone(&rt, four, &FOUR);

    // Of a timer's settings the last decides, and stands where it stood.
    let six = entered(&rt, rt.alloc(), &['s', '1', 'h', 'r', '2', '9']);
    static SIX: Wanted<'static> = Wanted {
        replies: &[(SECOND, 20), (FIRST, 10)],
        settings: &[
            (Timer::Named(2), Decision::Set(Time::After(2)), 60),
            (Timer::Named(1), Decision::Set(Time::After(9)), 70),
        ],
        ..NOTHING
    };
    asks_alone(&rt, six, &SIX);
    rt.end();
}

/// Looks that letters ask this of timers and of nobody else, in an event's list and in an enter call's.
fn asked_by(
    rt: &Host<impl Abort>,
    alloc: Global,
    letters: &[char],
    wanted: &[(Timer, Decision, u64)],
) {
    let wanted = Wanted {
        settings: wanted,
        ..NOTHING
    };
    asks_alone(rt, planned(rt, alloc, letters), &wanted);
    asks_alone(rt, entered(rt, alloc, letters), &wanted);
}

/// What is asked of a timer, without the content, and the content.
type Setting = (Timer, Decision, u64);

/// A timer is set.
const SET: Setting = (Timer::Named(1), Decision::Set(Time::After(1)), 50);

/// It is cancelled.
const CANCELLED: Setting = (Timer::Named(1), Decision::Cancel, 0);

/// It is updated.
const UPDATED: Setting = (Timer::Named(1), Decision::Update, 110);

/// The state time-out is updated.
const STATE_UPDATED: Setting = (Timer::State, Decision::Update, 120);

#[test]
fn of_all_that_is_asked_of_a_timer_the_last_decides(rt: HostRuntime) {
    static ROWS: [(&[char], &[Setting]); 5] = [
        (&['1', 'c', 'u'], &[UPDATED]),
        (&['u', 'c', '1'], &[SET]),
        (&['1', 'u', 'c'], &[CANCELLED]),
        // Another timer's stays, and each stands where the last of its timer stood.
        (&['u', 'x', 'c', 'v'], &[CANCELLED, STATE_UPDATED]),
        (&['d', 'c', 'v', '1', 'u'], &[STATE_UPDATED, UPDATED]),
    ];
    let rt = Host::new(rt);
    for (letters, wanted) in &ROWS {
        asked_by(&rt, rt.alloc(), *letters, *wanted);
    }
    rt.end();
}

#[test]
fn what_is_sent_keeps_its_order(rt: HostRuntime) {
    let rt = Host::new(rt);
    let five = planned(&rt, rt.alloc(), &['m', 'r', 'n', 'u', 'm']);
    static FIVE: Wanted<'static> = Wanted {
        replies: &[(FIRST, 10)],
        settings: &[(Timer::Named(1), Decision::Update, 110)],
        sends: &[(NEAR, 130), (FAR, 140), (NEAR, 130)],
        ..NOTHING
    };
    asks_alone(&rt, five, &FIVE);
    rt.end();
}

#[test]
fn the_last_setting_decides_also_in_long_lists(rt: HostRuntime) {
    let rt = Host::new(rt);
    static LASTS: [(char, u64); 13] = [
        ('F', 20),
        ('K', 21),
        ('H', 24),
        ('G', 26),
        ('I', 29),
        ('C', 30),
        ('J', 32),
        ('D', 33),
        ('B', 34),
        ('X', 36),
        ('L', 37),
        ('A', 38),
        ('E', 39),
    ];
    places(&rt, planned(&rt, rt.alloc(), &FORTY), &LASTS);
    places(&rt, entered(&rt, rt.alloc(), &FORTY), &LASTS);
    rt.end();
}
