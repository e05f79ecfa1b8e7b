//! Lists of the calls that a turn made.
use super::host::{Host, got, holds, is_count};
use st_core::{Call, Calls, OneInline};
use std::alloc::Global;
use std::process::Abort;

/// Looks that these calls are listed, in this order, and no others.
fn are_calls(rt: &impl Abort, calls: &Calls<u32>, wanted: &[Call<u32>]) {
    is_count(rt, "how many calls", calls.len(), wanted.len());
    for place in 0..wanted.len() {
        let stands = calls.get(place) == wanted.get(place);
        holds(rt, "each call in its place", stands);
    }
    let ends = calls.get(wanted.len()).is_none();
    holds(rt, "none behind the last", ends);
}

/// Adds a call.
fn push(rt: &impl Abort, calls: &mut Calls<u32>, call: Call<u32>) {
    got(rt, "there is memory", calls.push(call));
}

/// The calls that a list gets.
static WANTED: [Call<u32>; 3] = [
    Call::Enter { old: 3, state: 1 },
    Call::Enter { old: 5, state: 1 },
    Call::Enter { old: 4, state: 1 },
];

/// A list to which each of them was added.
fn listed(rt: &impl Abort, alloc: Global) -> Calls<u32> {
    let mut calls = OneInline::new(alloc);
    are_calls(rt, &calls, &[]);
    for call in &WANTED {
        push(rt, &mut calls, *call);
    }
    are_calls(rt, &calls, &WANTED);
    calls
}

/// Looks at a list of the first call, which is not equal to one of all.
fn first_is_another(rt: &impl Abort, alloc: Global, calls: &Calls<u32>) {
    let one = OneInline::of(alloc, WANTED[0]);
    are_calls(rt, &one, &WANTED[..1]);
    holds(rt, "lists of other calls are not equal", one != *calls);
}

/// Looks at a copy of a list.
fn copy_is_equal(rt: &impl Abort, alloc: Global, calls: &Calls<u32>) {
    let copy = got(rt, "there is memory", calls.copy(alloc));
    holds(rt, "a copy is equal", copy == *calls);
}

#[test]
fn calls_stand_in_their_order(rt: HostRuntime) {
    let rt = Host::with_memory(rt);
    let calls = listed(&rt, rt.alloc());
    first_is_another(&rt, rt.alloc(), &calls);
    copy_is_equal(&rt, rt.alloc(), &calls);
    rt.end_with_memory();
}
