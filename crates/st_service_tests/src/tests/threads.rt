//! The thread of a ticker: when it is woken, what it does not tick, and how it ends.
use super::bell::Order;
use super::chime::Chime::{
    AwaitsComing, AwaitsRefusals, AwaitsRings, Forgets, HaveCome, IsNotEarly, IsToRefuse, Removes,
    Serves, Sleeps, Starts, TakesToken,
};
use super::step::Step;
use super::step::Step::{EndsThread, LetsPoolGo, OpensPool, Plays, StartsThread};
use super::tower::tolls;
use st_core::Time;

/// A bell is to ring in 49 days, and then one that is to ring soon. The thread sleeps for long again when it is let go.
#[test]
fn an_earlier_time_out_and_the_end_wake_the_sleeper(rt: HostRuntime) {
    // The thread is asleep after the first 100 milliseconds, as a rule. A moment is cut to whole milliseconds, so a time-out
    // may come up to one before its time.
    static STEPS: [Step; 6] = [
        Plays(&[Starts(0, (Time::After(u32::MAX), Time::Infinity))]),
        OpensPool,
        Plays(&[Sleeps(100)]),
        Plays(&[
            Starts(1, (Time::After(60), Time::Infinity)),
            AwaitsRings(1, 1),
            IsNotEarly(59),
        ]),
        LetsPoolGo,
        Plays(&[HaveCome(1, 1)]),
    ];
    tolls(rt, &STEPS);
}

/// Three bells are to ring soon. Then one is told to ring later, one is told not to ring, and one is removed. The ticker is
/// not told, and visits them too early.
#[test]
fn a_machine_that_is_not_due_any_more_is_not_ticked(rt: HostRuntime) {
    static STEPS: [Step; 5] = [
        Plays(&[
            Starts(0, (Time::After(10), Time::Infinity)),
            Starts(1, (Time::After(10), Time::Infinity)),
            Starts(2, (Time::After(10), Time::Infinity)),
            Serves(0, Order::After(Time::After(60))),
            Serves(1, Order::After(Time::Infinity)),
            Removes(2),
        ]),
        StartsThread(0),
        Plays(&[AwaitsComing(0, 1)]),
        EndsThread((1, 1), None),
        Plays(&[Forgets(2)]),
    ];
    tolls(rt, &STEPS);
}

/// A bell is to ring twice, and is not served in between. Its token is refused thrice. On a busy machine both time-outs may
/// come by one tick.
#[test]
fn a_token_is_scheduled_until_it_is_taken(rt: HostRuntime) {
    static STEPS: [Step; 4] = [
        Plays(&[Starts(0, (Time::After(20), Time::After(40)))]),
        StartsThread(3),
        Plays(&[TakesToken(0), IsToRefuse(0), AwaitsComing(0, 2)]),
        EndsThread((0, 2), None),
    ];
    tolls(rt, &STEPS);
}

/// A bell rings, and nobody takes its token, which is told once.
#[test]
fn a_token_that_nobody_takes_is_handed_out_at_the_end(rt: HostRuntime) {
    static STEPS: [Step; 5] = [
        Plays(&[Starts(0, (Time::After(20), Time::Infinity))]),
        StartsThread(u64::MAX),
        Plays(&[AwaitsRefusals]),
        EndsThread((0, u64::MAX), Some(0)),
        EndsThread((0, u64::MAX), None),
    ];
    tolls(rt, &STEPS);
}
