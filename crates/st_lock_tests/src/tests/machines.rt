//! A machine that threads share answers as its cell does, with a journal and without one, also while an allocation is refused.
use super::asked::Asked;
use super::begun::{ID, TOKEN_1, TOKEN_2};
use super::by_rows::{AFTER_A_CUT, BEFORE_A_CUT, UNTIL_A_STOP};
use super::did::{FINISHED, SENT_TWO};
use super::ended::TOO_LATE;
use super::host::Host;
use super::memory::EACH_CALL;
use super::plain::OTHER;
use super::row::Row;
use super::shared::plays_shared;
use super::way::{FILLED, FILLED_UNJOURNALED, NEW, NEW_UNJOURNALED};
use st_core::{Kind, Refusal};
use st_events::Token;
use st_lock::Next;

#[test]
fn a_machine_by_rows(rt: HostRuntime) {
    let threads = rt;
    let rt = Host::new(rt);
    plays_shared(&rt, threads, rt.alloc(), NEW, &[UNTIL_A_STOP.as_slice()]);
    rt.end();
}

#[test]
fn a_machines_journal_is_cut(rt: HostRuntime) {
    let threads = rt;
    let rt = Host::new(rt);
    plays_shared(
        &rt,
        threads,
        rt.alloc(),
        FILLED,
        &[BEFORE_A_CUT.as_slice(), AFTER_A_CUT.as_slice()],
    );
    rt.end();
}

#[test]
fn each_call_of_a_machine_is_made_again(rt: HostRuntime) {
    let threads = rt;
    let rt = Host::new(rt);
    plays_shared(&rt, threads, rt.alloc(), NEW, &[EACH_CALL.as_slice()]);
    rt.end();
}

/// The machine's token with the wake number 7.
const TOKEN_7: Token = Token {
    machine: ID,
    wake: 7,
};

/// A machine is served: where it has a message, that is taken out, and else it is given a turn.
static SERVED: [Row; 17] = [
    Row::Refuses(Asked::TakeOut(TOKEN_1), Refusal::NotQueued),
    Row::Refuses(Asked::Serve(TOKEN_1, 0), Refusal::NotQueued),
    Row::Delivers(1, (OTHER, 5, 11), 1, Some(TOKEN_1)),
    Row::Refuses(Asked::Serve(TOKEN_2, 0), Refusal::NotQueued),
    Row::Refuses(Asked::Serve(TOKEN_1, TOO_LATE), Refusal::Moment),
    Row::ServesTurn(
        2,
        TOKEN_1,
        0,
        Next::Again(TOKEN_1),
        (1, Kind::Info),
        SENT_TWO,
    ),
    Row::ServesMessage(3, TOKEN_1, TOO_LATE, 1, 3),
    Row::Takes(4, TOKEN_1, 2, 4),
    Row::TakesNone(TOKEN_1),
    Row::Delivers(5, (OTHER, 6, 0), 2, None),
    Row::ServesTurn(6, TOKEN_1, 0, Next::Rest, (2, Kind::Info), FINISHED),
    Row::Refuses(Asked::TakeOut(TOKEN_1), Refusal::NotQueued),
    Row::Delivers(7, (OTHER, 7, 0), 3, Some(TOKEN_7)),
    Row::Stops(8, 3, 7),
    Row::Refuses(Asked::Deliver(OTHER, 8, 0), Refusal::Stopped(3)),
    Row::ServesRest(TOKEN_7, TOO_LATE),
    Row::Refuses(Asked::Serve(TOKEN_7, 0), Refusal::NotQueued),
];

#[test]
fn a_machine_is_served(rt: HostRuntime) {
    let threads = rt;
    let rt = Host::new(rt);
    plays_shared(&rt, threads, rt.alloc(), NEW, &[SERVED.as_slice()]);
    rt.end();
}

#[test]
fn a_machine_without_a_journal_by_rows(rt: HostRuntime) {
    let threads = rt;
    let rt = Host::new(rt);
    plays_shared(
        &rt,
        threads,
        rt.alloc(),
        FILLED_UNJOURNALED,
        &[UNTIL_A_STOP.as_slice()],
    );
    rt.end();
}

#[test]
fn each_call_of_a_machine_without_a_journal_is_made_again(rt: HostRuntime) {
    let threads = rt;
    let rt = Host::new(rt);
    plays_shared(
        &rt,
        threads,
        rt.alloc(),
        NEW_UNJOURNALED,
        &[EACH_CALL.as_slice()],
    );
    rt.end();
}

#[test]
fn a_machine_without_a_journal_is_served(rt: HostRuntime) {
    let threads = rt;
    let rt = Host::new(rt);
    plays_shared(
        &rt,
        threads,
        rt.alloc(),
        NEW_UNJOURNALED,
        &[SERVED.as_slice()],
    );
    rt.end();
}
