//! Tests of st_timeouts: each call once with memory at hand, and all of them where one allocation is refused.
ghost use Rattle.std.specs.Prelude.{◌≡◌, ◌<◌};

mod call;
mod seen;

use super::host::{Host, holds, is_count, is_letter};
use call::Call::{Copy, List, Reserve, Set, Shows, Takes, Update};
use call::Shows::{Content, CountDue, FirstZero, IsLive, NextDue, Runs};
use call::Takes::{Cancel, NextExpiry, Take, TakeDue};
use call::{Call, row_answers, set};
use st_events::Timer;
use st_steps::Steps;
use st_timeouts::{Due, Timeouts};
use std::alloc::Global;
use std::marker::Brand;
use std::process::Abort;
use std::sync::ledger::{Blank, Ledger};

#[test]
fn each_call_answers(rt: HostRuntime) {
    static ROW: [Call; 28] = [
        Shows(FirstZero(None)),
        Shows(NextDue(None)),
        Reserve(3),
        Set {
            timer: Timer::Event,
            time: 0,
            content: 'a',
            number: 1,
            now: 5,
            returned: None,
        },
        Set {
            timer: Timer::State,
            time: 10,
            content: 'b',
            number: 2,
            now: 5,
            returned: None,
        },
        Set {
            timer: Timer::Named(7),
            time: 20,
            content: 'c',
            number: 3,
            now: 5,
            returned: None,
        },
        Shows(FirstZero(Some((Timer::Event, 1)))),
        Shows(CountDue(14, 0)),
        Shows(CountDue(15, 1)),
        Shows(CountDue(25, 2)),
        Shows(NextDue(Some(15))),
        Shows(Content(Timer::State, 2, Some('b'))),
        Shows(Content(Timer::State, 3, None)),
        Shows(IsLive(Timer::Event, 1, true)),
        Shows(IsLive(Timer::Event, 2, false)),
        Shows(IsLive(Timer::Named(8), 3, false)),
        Takes(NextExpiry(14, None)),
        Takes(NextExpiry(15, Some((Timer::State, 2)))),
        Takes(NextExpiry(15, None)),
        Shows(NextDue(Some(25))),
        List(&[
            (Timer::Event, 1, Due::Zero),
            (Timer::State, 2, Due::At(15)),
            (Timer::Named(7), 3, Due::At(25)),
        ]),
        Takes(Take(Timer::Event, 2, None)),
        Takes(Take(Timer::Event, 1, Some('a'))),
        Shows(IsLive(Timer::Event, 1, false)),
        Takes(Cancel(Timer::State, Some('b'))),
        Takes(Cancel(Timer::State, None)),
        Set {
            timer: Timer::Named(7),
            time: 1,
            content: 'd',
            number: 4,
            now: 6,
            returned: Some('c'),
        },
        List(&[(Timer::Named(7), 4, Due::At(7))]),
    ];
    let rt = Host::new(rt);
    row_answers::<Brand>(&rt, rt.alloc(), Blank::new(1), &ROW);
    rt.end();
}

#[test]
fn two_time_outs_for_one_moment_come_by_number(rt: HostRuntime) {
    static ROW: [Call; 9] = [
        Set {
            timer: Timer::Named(1),
            time: 20,
            content: 'a',
            number: 1,
            now: 0,
            returned: None,
        },
        Set {
            timer: Timer::Named(2),
            time: 10,
            content: 'b',
            number: 2,
            now: 0,
            returned: None,
        },
        Set {
            timer: Timer::Named(3),
            time: 20,
            content: 'c',
            number: 3,
            now: 0,
            returned: None,
        },
        Shows(CountDue(20, 3)),
        Takes(NextExpiry(20, Some((Timer::Named(2), 2)))),
        Takes(NextExpiry(20, Some((Timer::Named(1), 1)))),
        Takes(TakeDue(Some((Timer::Named(3), 3)))),
        Takes(TakeDue(None)),
        Takes(NextExpiry(20, None)),
    ];
    let rt = Host::new(rt);
    row_answers::<Brand>(&rt, rt.alloc(), Blank::new(1), &ROW);
    rt.end();
}

#[test]
fn a_timer_set_anew_goes_last(rt: HostRuntime) {
    static ROW: [Call; 11] = [
        Set {
            timer: Timer::Named(1),
            time: 20,
            content: 'a',
            number: 1,
            now: 0,
            returned: None,
        },
        Set {
            timer: Timer::Named(2),
            time: 20,
            content: 'b',
            number: 2,
            now: 0,
            returned: None,
        },
        Set {
            timer: Timer::Named(1),
            time: 20,
            content: 'c',
            number: 3,
            now: 0,
            returned: Some('a'),
        },
        List(&[
            (Timer::Named(2), 2, Due::At(20)),
            (Timer::Named(1), 3, Due::At(20)),
        ]),
        Copy(&[
            (Timer::Named(2), 2, Due::At(20), 'b'),
            (Timer::Named(1), 3, Due::At(20), 'c'),
        ]),
        Shows(IsLive(Timer::Named(1), 1, false)),
        Shows(IsLive(Timer::Named(1), 3, true)),
        Shows(Content(Timer::Named(1), 1, None)),
        Shows(Content(Timer::Named(1), 3, Some('c'))),
        Takes(Take(Timer::Named(1), 1, None)),
        Takes(Take(Timer::Named(1), 3, Some('c'))),
    ];
    let rt = Host::new(rt);
    row_answers::<Brand>(&rt, rt.alloc(), Blank::new(1), &ROW);
    rt.end();
}

#[test]
fn a_zero_time_out_waits_for_no_moment(rt: HostRuntime) {
    static ROW: [Call; 8] = [
        Set {
            timer: Timer::Named(5),
            time: 0,
            content: 'a',
            number: 8,
            now: 4,
            returned: None,
        },
        Set {
            timer: Timer::Event,
            time: 0,
            content: 'b',
            number: 9,
            now: 4,
            returned: None,
        },
        Shows(CountDue(u64::MAX, 0)),
        Shows(NextDue(None)),
        Takes(NextExpiry(u64::MAX, None)),
        Shows(FirstZero(Some((Timer::Named(5), 8)))),
        Takes(Take(Timer::Named(5), 8, Some('a'))),
        Shows(FirstZero(Some((Timer::Event, 9)))),
    ];
    let rt = Host::new(rt);
    row_answers::<Brand>(&rt, rt.alloc(), Blank::new(1), &ROW);
    rt.end();
}

#[test]
fn an_expiry_comes_once(rt: HostRuntime) {
    static ROW: [Call; 10] = [
        Set {
            timer: Timer::State,
            time: 10,
            content: 'a',
            number: 1,
            now: 0,
            returned: None,
        },
        Takes(NextExpiry(10, Some((Timer::State, 1)))),
        Shows(CountDue(10, 0)),
        Shows(NextDue(None)),
        Takes(NextExpiry(10, None)),
        List(&[(Timer::State, 1, Due::At(10))]),
        Shows(IsLive(Timer::State, 1, true)),
        Shows(Content(Timer::State, 1, Some('a'))),
        Set {
            timer: Timer::State,
            time: 10,
            content: 'b',
            number: 2,
            now: 10,
            returned: Some('a'),
        },
        Takes(NextExpiry(20, Some((Timer::State, 2)))),
    ];
    let rt = Host::new(rt);
    row_answers::<Brand>(&rt, rt.alloc(), Blank::new(1), &ROW);
    rt.end();
}

#[test]
fn another_content_leaves_all_else(rt: HostRuntime) {
    static ROW: [Call; 21] = [
        Set {
            timer: Timer::Event,
            time: 0,
            content: 'a',
            number: 1,
            now: 5,
            returned: None,
        },
        Set {
            timer: Timer::State,
            time: 10,
            content: 'b',
            number: 2,
            now: 5,
            returned: None,
        },
        Set {
            timer: Timer::Named(7),
            time: 20,
            content: 'c',
            number: 3,
            now: 5,
            returned: None,
        },
        Shows(Runs(Timer::State, true)),
        Shows(Runs(Timer::Named(8), false)),
        Takes(NextExpiry(15, Some((Timer::State, 2)))),
        Update(Timer::Event, 'd', 'a'),
        Update(Timer::State, 'e', 'b'),
        Update(Timer::Named(7), 'f', 'c'),
        Update(Timer::Named(7), 'g', 'f'),
        List(&[
            (Timer::Event, 1, Due::Zero),
            (Timer::State, 2, Due::At(15)),
            (Timer::Named(7), 3, Due::At(25)),
        ]),
        Shows(Content(Timer::Event, 1, Some('d'))),
        Shows(Content(Timer::State, 2, Some('e'))),
        Shows(Content(Timer::Named(7), 3, Some('g'))),
        Shows(FirstZero(Some((Timer::Event, 1)))),
        Takes(NextExpiry(15, None)),
        Takes(NextExpiry(25, Some((Timer::Named(7), 3)))),
        Takes(NextExpiry(25, None)),
        Takes(Take(Timer::Event, 1, Some('d'))),
        Takes(Cancel(Timer::State, Some('e'))),
        Shows(Runs(Timer::State, false)),
    ];
    let rt = Host::new(rt);
    row_answers::<Brand>(&rt, rt.alloc(), Blank::new(1), &ROW);
    rt.end();
}

#[test]
fn the_last_moment_and_the_longest_time(rt: HostRuntime) {
    static ROW: [Call; 5] = [
        Set {
            timer: Timer::Event,
            time: 4_294_967_295,
            content: 'a',
            number: 1,
            now: 9_223_372_036_854_775_807,
            returned: None,
        },
        List(&[(Timer::Event, 1, Due::At(9_223_372_041_149_743_102))]),
        Shows(NextDue(Some(9_223_372_041_149_743_102))),
        Takes(NextExpiry(9_223_372_041_149_743_101, None)),
        Takes(NextExpiry(9_223_372_041_149_743_102, Some((Timer::Event, 1)))),
    ];
    let rt = Host::new(rt);
    row_answers::<Brand>(&rt, rt.alloc(), Blank::new(1), &ROW);
    rt.end();
}

#[test]
fn a_refused_call_changes_nothing(rt: HostRuntime) {
    static ROW: [Call; 12] = [
        Set {
            timer: Timer::Event,
            time: 0,
            content: 'a',
            number: 1,
            now: 0,
            returned: None,
        },
        Set {
            timer: Timer::State,
            time: 10,
            content: 'b',
            number: 2,
            now: 0,
            returned: None,
        },
        Set {
            timer: Timer::Named(1),
            time: 20,
            content: 'c',
            number: 3,
            now: 0,
            returned: None,
        },
        Takes(NextExpiry(10, Some((Timer::State, 2)))),
        Reserve(20),
        Shows(CountDue(20, 1)),
        Set {
            timer: Timer::Named(2),
            time: 5,
            content: 'd',
            number: 4,
            now: 0,
            returned: None,
        },
        Reserve(100),
        List(&[
            (Timer::Event, 1, Due::Zero),
            (Timer::State, 2, Due::At(10)),
            (Timer::Named(1), 3, Due::At(20)),
            (Timer::Named(2), 4, Due::At(5)),
        ]),
        Takes(NextExpiry(20, Some((Timer::Named(2), 4)))),
        Takes(NextExpiry(20, Some((Timer::Named(1), 3)))),
        Takes(NextExpiry(20, None)),
    ];
    let rt = Host::new(rt);
    row_answers::<Brand>(&rt, rt.alloc(), Blank::new(1), &ROW);
    rt.end();
}

/// A named timer and the moment for which it is set: each of 500 moments once.
fn timer_and_moment(place: u32) -> (Timer, u32) {
    (Timer::Named(place), place % 500 * 77 % 500 + 1)
}

/// A timer is set for a second, and then for its moment.
fn set_twice<L: Ledger>(
    rt: &Host<impl Abort>,
    timeouts: &mut Timeouts<char>,
    place: u32,
    steps: &mut Steps<L>,
) {
    let (timer, moment) = timer_and_moment(place);
    let number = u64::from(place);
    set(rt, timeouts, timer, 1_000, 'a', number, 0, steps);
    let old = set(rt, timeouts, timer, moment, 'b', number, 0, steps);
    is_letter(rt, "what was set for a second", old, Some('a'));
}

/// The name of a timer that has one.
fn name_of(rt: &impl Abort, timer: Timer) -> u32 {
    match timer {
        Timer::Named(name) => name,
        Timer::Event | Timer::State => panic!(rt; "all have names"),
    }
}

/// The next expiry, by the moment 500: it was not stopped, and comes after a moment. It answers its own.
fn next_after<L: Ledger>(
    rt: &impl Abort,
    timeouts: &mut Timeouts<char>,
    last: u32,
    steps: &mut Steps<L>,
) -> u32 {
    let next = timeouts.next_expiry(500, steps);
    let (timer, number) = next.expect(rt, "333 are due");
    let place = name_of(rt, timer);
    let moment = timer_and_moment(place).1;
    holds(rt, "it was not stopped", place % 3 != 0);
    holds(rt, "it has its number", number == u64::from(place));
    holds(rt, "it comes after the last", last < moment);
    moment
}

/// So many are due by a moment.
fn are_due<L: Ledger>(
    rt: &impl Abort,
    timeouts: &Timeouts<char>,
    now: u64,
    count: usize,
    steps: &mut Steps<L>,
) {
    is_count(
        rt,
        "how many are due",
        timeouts.count_due(now, steps),
        count,
    );
}

/// Five hundred timers are set, each of 500 moments once.
fn many_run<L: Ledger>(rt: &Host<impl Abort>, timeouts: &mut Timeouts<char>, steps: &mut Steps<L>) {
    for place in 0..500 {
        set_twice(rt, timeouts, place, steps);
    }
    are_due(rt, timeouts, 250, 250, steps);
    are_due(rt, timeouts, 1_000, 500, steps);
}

/// Every third of them is stopped.
fn thirds_stop<L: Ledger>(rt: &impl Abort, timeouts: &mut Timeouts<char>, steps: &mut Steps<L>) {
    for third in 0..167 {
        let stopped = timeouts.cancel(timer_and_moment(third * 3).0);
        is_letter(rt, "what is stopped", stopped, Some('b'));
    }
    are_due(rt, timeouts, 1_000, 333, steps);
}

/// The others expire in order.
fn others_expire<L: Ledger>(rt: &impl Abort, timeouts: &mut Timeouts<char>, steps: &mut Steps<L>) {
    let mut last = 0;
    for _ in 0..333 {
        last = next_after(rt, timeouts, last, steps);
    }
    let none = timeouts.next_expiry(1_000, steps) == None;
    holds(rt, "all have expired", none);
}

/// Many run: every third is stopped, each moment has been set twice, and the others expire in order.
fn many<L: Ledger>(rt: &Host<impl Abort>, alloc: Global, blank: Blank)
    requires name { blank.name ≡ L.name }
    requires parts { blank.parts ≡ L.parts }
    requires some { 0 < blank.parts }
{
    let mut steps = Steps::<L>::new(blank);
    let mut timeouts = rt.boxed(alloc, Timeouts::new(alloc));
    many_run(rt, &mut timeouts, &mut steps);
    thirds_stop(rt, &mut timeouts, &mut steps);
    others_expire(rt, &mut timeouts, &mut steps);
}

#[test]
fn many_expire_in_order(rt: HostRuntime) {
    let rt = Host::new(rt);
    many::<Brand>(&rt, rt.alloc(), Blank::new(1));
    rt.end();
}
