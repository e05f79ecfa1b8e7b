//! How much a list asks for, and each kind of action taken out of it.
use super::super::host::{Host, got, holds, is_count, is_number, same};
use super::{FAR, FIRST, NEAR, SECOND, has, is_insert, is_reply, is_send, is_setting, list};
use st_actions::{Counts, count, count_last, take_insert, take_reply, take_send, take_setting};
use st_events::{Actions, Decision, Kind, MachineId, Tag, Time, Timer};
use std::alloc::Global;
use std::process::Abort;

/// Counts what a list asks for. A call that finds no memory leaves the list as it is, and is made again.
fn counted(
    rt: &Host<impl Abort>,
    alloc: Global,
    actions: &mut Actions<u64>,
    letters: &[char],
) -> Counts {
    match count_last(alloc, actions) {
        Ok(counts) => counts,
        Err(_) => {
            holds(rt, "four take no memory", letters.len() > 4);
            has(rt, actions, letters);
            rt.retry();
            let again = count_last(alloc, actions);
            got(rt, "one allocation alone is refused", again)
        }
    }
}

/// Looks that so much was counted.
fn counts_are(rt: &impl Abort, counts: Counts, wanted: Counts) {
    is_count(rt, "how many replies", counts.replies, wanted.replies);
    is_count(rt, "how many inserts", counts.inserts, wanted.inserts);
    is_count(rt, "how many settings", counts.settings, wanted.settings);
    is_count(rt, "how many updates", counts.updates, wanted.updates);
    is_count(rt, "how much is sent", counts.sends, wanted.sends);
    is_number(rt, "how many numbers", counts.numbers, wanted.numbers);
    same(rt, "the last postpone", &counts.postpone, &wanted.postpone);
}

/// Looks what a list asks for, and what is left of it.
fn is_counted(
    rt: &Host<impl Abort>,
    alloc: Global,
    letters: &[char],
    left: &[char],
    wanted: Counts,
) {
    let mut actions = list(rt, alloc, letters);
    let counts = counted(rt, alloc, &mut actions, letters);
    counts_are(rt, counts, wanted);
    has(rt, &actions, left);
    counts_are(rt, count(&actions), wanted);
    drop(actions);
}

/// Nothing is counted.
const NONE: Counts = Counts {
    replies: 0,
    inserts: 0,
    settings: 0,
    updates: 0,
    sends: 0,
    numbers: 0,
    postpone: None,
};

/// What a list asks for: its letters, those that are left of them, and what is counted.
struct Row {
    letters: &'static [char],
    left: &'static [char],
    counts: Counts,
}

/// Looks that each row is counted.
fn are_counted(rt: &Host<impl Abort>, alloc: Global, rows: &[Row]) {
    for row in rows {
        is_counted(rt, alloc, row.letters, row.left, row.counts);
    }
}

#[test]
fn what_is_asked_for_is_counted(rt: HostRuntime) {
    static ROWS: [Row; 3] = [
        Row {
            letters: &[],
            left: &[],
            counts: NONE,
        },
        Row {
            letters: &['p', '0', 'k'],
            left: &['p', '0', 'k'],
            counts: Counts {
                settings: 1,
                postpone: Some(false),
                ..NONE
            },
        },
        // Of each timer the last setting is left.
        Row {
            letters: &['1', 'r', 'k', 'i', '2', 's', 'p', 't', '9', 'i'],
            left: &['h', 'r', 'k', 'i', '2', 's', 'p', 't', '9', 'i'],
            counts: Counts {
                replies: 2,
                inserts: 3,
                settings: 2,
                numbers: 5,
                postpone: Some(true),
                ..NONE
            },
        },
    ];
    let rt = Host::new(rt);
    are_counted(&rt, rt.alloc(), &ROWS);
    rt.end();
}

#[test]
fn cancels_updates_and_sends_are_counted(rt: HostRuntime) {
    static ROWS: [Row; 4] = [
        // An update takes no number in any case.
        Row {
            letters: &['1', 'u'],
            left: &['h', 'u'],
            counts: Counts {
                settings: 1,
                updates: 1,
                ..NONE
            },
        },
        Row {
            letters: &['u', '1'],
            left: &['h', '1'],
            counts: Counts {
                settings: 1,
                numbers: 1,
                ..NONE
            },
        },
        Row {
            letters: &['c', 'v', 'm', 'u', 'd', '1', 'n', 'i'],
            left: &['h', 'h', 'm', 'h', 'd', '1', 'n', 'i'],
            counts: Counts {
                inserts: 1,
                settings: 2,
                sends: 2,
                numbers: 2,
                ..NONE
            },
        },
        Row {
            letters: &['1', 'v', 'm', 'c', 'u', 'x', 'v', 'n', 'u'],
            left: &['h', 'h', 'm', 'h', 'h', 'h', 'v', 'n', 'u'],
            counts: Counts {
                settings: 2,
                updates: 2,
                sends: 2,
                ..NONE
            },
        },
    ];
    let rt = Host::new(rt);
    are_counted(&rt, rt.alloc(), &ROWS);
    rt.end();
}

/// Looks that these replies are taken out of a list, in their order, and no others.
fn replies_leave(rt: &impl Abort, actions: &mut Actions<u64>, wanted: &[(Tag, u64)]) {
    let mut count = 0usize;
    for index in 0..actions.len() {
        if let Some(reply) = take_reply(actions, index) {
            let other = wanted.get(count).expect(rt, "no others are taken");
            is_reply(rt, &reply, other);
            count = count.saturating_add(1);
        }
    }
    is_count(rt, "how many replies", count, wanted.len());
}

/// Looks that these events to be inserted are taken out of a list, the last one first, and no others.
fn inserts_leave(rt: &impl Abort, actions: &mut Actions<u64>, wanted: &[(Kind, u64)]) {
    let mut count = 0usize;
    let mut index = actions.len();
    while index > 0 {
        index -= 1;
        if let Some(insert) = take_insert(actions, index) {
            let other = wanted.get(count).expect(rt, "no others are taken");
            is_insert(rt, &insert, other);
            count = count.saturating_add(1);
        }
    }
    is_count(rt, "how many inserts", count, wanted.len());
}

/// Looks that these settings are taken out of a list, in their order, and no others.
fn settings_leave(rt: &impl Abort, actions: &mut Actions<u64>, wanted: &[(Timer, Decision, u64)]) {
    let mut count = 0usize;
    for index in 0..actions.len() {
        if let Some(setting) = take_setting(actions, index) {
            let other = wanted.get(count).expect(rt, "no others are taken");
            is_setting(rt, &setting, other);
            count = count.saturating_add(1);
        }
    }
    is_count(rt, "how many settings", count, wanted.len());
}

/// Looks that this is taken out of a list, to be sent in its order, and no more.
fn sends_leave(rt: &impl Abort, actions: &mut Actions<u64>, wanted: &[(MachineId, u64)]) {
    let mut count = 0usize;
    for index in 0..actions.len() {
        if let Some(send) = take_send(actions, index) {
            let other = wanted.get(count).expect(rt, "no more is taken");
            is_send(rt, &send, other);
            count = count.saturating_add(1);
        }
    }
    is_count(rt, "how much is sent", count, wanted.len());
}

#[test]
fn each_kind_leaves_its_places(rt: HostRuntime) {
    let rt = Host::new(rt);
    let mut actions = list(&rt, rt.alloc(), &['r', 'i', '1', 's', 't', 'p', '0']);
    static REPLIES: [(Tag, u64); 2] = [(FIRST, 10), (SECOND, 20)];
    replies_leave(&rt, &mut actions, &REPLIES);
    has(&rt, &actions, &['h', 'i', '1', 'h', 't', 'p', '0']);
    static INSERTS: [(Kind, u64); 2] = [(Kind::Timeout(Timer::State), 40), (Kind::Internal, 30)];
    inserts_leave(&rt, &mut actions, &INSERTS);
    has(&rt, &actions, &['h', 'h', '1', 'h', 'h', 'p', '0']);
    static SETTINGS: [(Timer, Decision, u64); 2] = [
        (Timer::Named(1), Decision::Set(Time::After(1)), 50),
        (Timer::Named(1), Decision::Set(Time::Infinity), 80),
    ];
    settings_leave(&rt, &mut actions, &SETTINGS);
    has(&rt, &actions, &['h', 'h', 'h', 'h', 'h', 'p', 'h']);
    drop(actions);
    rt.end();
}

#[test]
fn cancels_updates_and_sends_leave_their_places(rt: HostRuntime) {
    let rt = Host::new(rt);
    let mut actions = list(&rt, rt.alloc(), &['u', 'm', 'c', 'r', 'n', '0']);
    static SETTINGS: [(Timer, Decision, u64); 3] = [
        (Timer::Named(1), Decision::Update, 110),
        (Timer::Named(1), Decision::Cancel, 0),
        (Timer::Named(1), Decision::Set(Time::Infinity), 80),
    ];
    settings_leave(&rt, &mut actions, &SETTINGS);
    has(&rt, &actions, &['h', 'm', 'h', 'r', 'n', 'h']);
    static SENDS: [(MachineId, u64); 2] = [(NEAR, 130), (FAR, 140)];
    sends_leave(&rt, &mut actions, &SENDS);
    has(&rt, &actions, &['h', 'h', 'h', 'r', 'h', 'h']);
    drop(actions);
    rt.end();
}
