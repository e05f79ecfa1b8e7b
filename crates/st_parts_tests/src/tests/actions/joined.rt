//! What two lists ask for together.
use super::super::host::{Host, got, holds, is_count};
use super::{
    FAR, FIRST, FORTY, NEAR, NOTHING, SECOND, Wanted, asks_alone, decided, entered, is_insert,
    is_reply, is_send, is_setting, places, planned,
};
use st_actions::{Planned, join};
use st_events::{Decision, Kind, Time, Timer};
use std::alloc::Global;
use std::process::Abort;

/// Looks that two plans reply the same.
fn reply_the_same(rt: &impl Abort, found: &Planned<u64>, wanted: &Planned<u64>) {
    let count = found.replies.len();
    is_count(rt, "how many replies", count, wanted.replies.len());
    for index in 0..count {
        let one = found.replies.get(index).expect(rt, "there are so many");
        let other = wanted.replies.get(index).expect(rt, "there are as many");
        is_reply(rt, one, other);
    }
}

/// Looks that two plans insert the same.
fn insert_the_same(rt: &impl Abort, found: &Planned<u64>, wanted: &Planned<u64>) {
    let count = found.inserts.len();
    is_count(rt, "how many inserts", count, wanted.inserts.len());
    for index in 0..count {
        let one = found.inserts.get(index).expect(rt, "there are so many");
        let other = wanted.inserts.get(index).expect(rt, "there are as many");
        is_insert(rt, one, &(other.kind, other.content));
    }
}

/// Looks that two plans ask the same of timers.
fn set_the_same(rt: &impl Abort, found: &Planned<u64>, wanted: &Planned<u64>) {
    let count = found.requests.len();
    is_count(rt, "how many settings", count, wanted.requests.len());
    for index in 0..count {
        let one = found.requests.get(index).expect(rt, "there are so many");
        let other = wanted.requests.get(index).expect(rt, "there are as many");
        let (decision, content) = decided(&other.asked);
        is_setting(rt, one, &(other.timer, decision, content));
    }
}

/// Looks that two plans send the same.
fn send_the_same(rt: &impl Abort, found: &Planned<u64>, wanted: &Planned<u64>) {
    let count = found.sends.len();
    is_count(rt, "how much is sent", count, wanted.sends.len());
    for index in 0..count {
        let one = found.sends.get(index).expect(rt, "there is so much");
        let other = wanted.sends.get(index).expect(rt, "there is as much");
        is_send(rt, one, other);
    }
}

/// Looks that two plans ask for the same.
fn ask_the_same(rt: &impl Abort, found: &Planned<u64>, wanted: &Planned<u64>) {
    reply_the_same(rt, found, wanted);
    holds(
        rt,
        "both postpone, or none",
        found.postpone == wanted.postpone,
    );
    insert_the_same(rt, found, wanted);
    set_the_same(rt, found, wanted);
    send_the_same(rt, found, wanted);
}

/// What two plans ask for together. A call that finds no memory gives both back, equal to `copies`, and is
/// made again.
fn joined(
    rt: &Host<impl Abort>,
    alloc: Global,
    plans: (Planned<u64>, Planned<u64>),
    copies: &(Planned<u64>, Planned<u64>),
) -> Planned<u64> {
    match join(alloc, plans.0, plans.1) {
        Ok(planned) => planned,
        Err(failed) => {
            let (first, second) = failed.value;
            ask_the_same(rt, &first, &copies.0);
            ask_the_same(rt, &second, &copies.1);
            rt.retry();
            let again = join(alloc, first, second);
            got(rt, "one allocation alone is refused", again)
        }
    }
}

/// What an event's letters ask for, and what an enter call's do.
fn event_and_enter(
    rt: &Host<impl Abort>,
    alloc: Global,
    event: &[char],
    enter: &[char],
) -> (Planned<u64>, Planned<u64>) {
    (planned(rt, alloc, event), entered(rt, alloc, enter))
}

/// What the letters of two events ask for.
fn two_events(
    rt: &Host<impl Abort>,
    alloc: Global,
    first: &[char],
    second: &[char],
) -> (Planned<u64>, Planned<u64>) {
    (planned(rt, alloc, first), planned(rt, alloc, second))
}

/// What an event's letters and an enter call's ask for together.
fn event_joined(
    rt: &Host<impl Abort>,
    alloc: Global,
    event: &[char],
    enter: &[char],
) -> Planned<u64> {
    let copies = event_and_enter(rt, alloc, event, enter);
    let plans = event_and_enter(rt, alloc, event, enter);
    let both = joined(rt, alloc, plans, &copies);
    drop(copies);
    both
}

/// What the letters of two events ask for together.
fn events_joined(
    rt: &Host<impl Abort>,
    alloc: Global,
    first: &[char],
    second: &[char],
) -> Planned<u64> {
    let copies = two_events(rt, alloc, first, second);
    let plans = two_events(rt, alloc, first, second);
    let both = joined(rt, alloc, plans, &copies);
    drop(copies);
    both
}

#[test]
fn an_enter_calls_settings_replace_the_events(rt: HostRuntime) {
    let rt = Host::new(rt);
    static EVENT: [char; 5] = ['r', 'p', 'i', '1', 'e'];
    let both = event_joined(&rt, rt.alloc(), &EVENT, &['s', '0', 'h']);
    static BOTH: Wanted<'static> = Wanted {
        replies: &[(FIRST, 10), (SECOND, 20)],
        postpone: true,
        inserts: &[(Kind::Internal, 30)],
        settings: &[
            (Timer::Event, Decision::Set(Time::After(0)), 90),
            (Timer::Named(1), Decision::Set(Time::Infinity), 80),
        ],
        ..NOTHING
    };
    asks_alone(&rt, both, &BOTH);

    // The first list alone decides whether the event is postponed.
    let kept = events_joined(&rt, rt.alloc(), &['i', 'k'], &['p', 't']);
    static KEPT: Wanted<'static> = Wanted {
        inserts: &[(Kind::Internal, 30), (Kind::Timeout(Timer::State), 40)],
        ..NOTHING
    };
    asks_alone(&rt, kept, &KEPT);
    rt.end();
}

#[test]
fn a_refused_join_changes_nothing(rt: HostRuntime) {
    let rt = Host::new(rt);
    static EARLIER: [char; 12] = ['r', 'i', 's', 't', '1', 'p', 'i', 'n', 'e', '2', 'x', 'r'];
    static LATER: [char; 7] = ['s', 't', 'm', 'k', 'i', '9', 'r'];
    let both = events_joined(&rt, rt.alloc(), &EARLIER, &LATER);
    static BOTH: Wanted<'static> = Wanted {
        replies: &[
            (FIRST, 10),
            (SECOND, 20),
            (FIRST, 10),
            (SECOND, 20),
            (FIRST, 10),
        ],
        postpone: true,
        inserts: &[
            (Kind::Internal, 30),
            (Kind::Timeout(Timer::State), 40),
            (Kind::Internal, 30),
            (Kind::Timeout(Timer::State), 40),
            (Kind::Internal, 30),
        ],
        settings: &[
            (Timer::Event, Decision::Set(Time::After(0)), 90),
            (Timer::Named(2), Decision::Set(Time::After(2)), 60),
            (Timer::State, Decision::Set(Time::After(3)), 100),
            (Timer::Named(1), Decision::Set(Time::After(9)), 70),
        ],
        sends: &[(FAR, 140), (NEAR, 130)],
    };
    asks_alone(&rt, both, &BOTH);
    rt.end();
}

#[test]
fn what_an_enter_call_asks_of_a_timer_decides(rt: HostRuntime) {
    let rt = Host::new(rt);
    static EVENT: [char; 5] = ['1', 'm', 'v', 'n', 'e'];
    let both = event_joined(&rt, rt.alloc(), &EVENT, &['d', 'u']);
    static BOTH: Wanted<'static> = Wanted {
        settings: &[
            (Timer::Event, Decision::Set(Time::After(0)), 90),
            (Timer::State, Decision::Cancel, 0),
            (Timer::Named(1), Decision::Update, 110),
        ],
        sends: &[(NEAR, 130), (FAR, 140)],
        ..NOTHING
    };
    asks_alone(&rt, both, &BOTH);

    // A second list sends behind the first.
    let sent = events_joined(&rt, rt.alloc(), &['n', 'u'], &['m', '1', 'n']);
    static SENT: Wanted<'static> = Wanted {
        settings: &[(Timer::Named(1), Decision::Set(Time::After(1)), 50)],
        sends: &[(FAR, 140), (NEAR, 130), (FAR, 140)],
        ..NOTHING
    };
    asks_alone(&rt, sent, &SENT);
    rt.end();
}

#[test]
fn the_last_setting_decides_also_in_long_plans(rt: HostRuntime) {
    let rt = Host::new(rt);
    static TWELVE: [char; 12] = ['M', 'B', 'N', 'A', 'O', 'X', 'A', 'P', 'B', 'Q', 'M', 'N'];
    let both = event_joined(&rt, rt.alloc(), &FORTY, &TWELVE);
    // Those of the forty whose timers none of the twelve sets, and then the last ones of the twelve.
    static LASTS: [(char, u64); 18] = [
        ('F', 20),
        ('K', 21),
        ('H', 24),
        ('G', 26),
        ('I', 29),
        ('C', 30),
        ('J', 32),
        ('D', 33),
        ('L', 37),
        ('E', 39),
        ('O', 4),
        ('X', 5),
        ('A', 6),
        ('P', 7),
        ('B', 8),
        ('Q', 9),
        ('M', 10),
        ('N', 11),
    ];
    places(&rt, both, &LASTS);
    rt.end();
}
