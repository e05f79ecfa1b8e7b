//! What is handled next is shown, and another module handles it.
use super::begin::begun;
use super::host::{Host, is_number, same};
use super::row::More::Enters;
use super::row::Row;
use super::row::Row::{Tells, Turns};
use super::shown::Shown::Posted;
use super::table::Table;
use super::table_machine::PLAIN;
use super::tested::play;
use super::told::Told::Cast;
use st_core::{Core, Kind};
use std::process::Abort;

/// Looks at the number and the content of the cast that is handled next, if there is one.
fn is_next(rt: &Host<impl Abort>, core: &Core<Table>, wanted: Option<(u64, u32)>) {
    let next = match core.next() {
        Some((number, Kind::Cast, content)) => Some((number, *content)),
        _ => None,
    };
    same(rt, "the next event", &next, &wanted);
}

/// Puts a module with enter calls in the place of one without.
fn gets_enter_calls(rt: &Host<impl Abort>, core: &mut Core<Table>) {
    let old = core.replace_module(Table { number: 60 });
    is_number(rt, "the old module comes back", old.number, 50);
    is_number(rt, "the new one is there", core.module().number, 60);
}

/// Two casts come, and a module with enter calls handles the first.
fn is_replaced(rt: &Host<impl Abort>, core: &mut Core<Table>) {
    static POSTS: [Row; 2] = [Tells(Cast(3), Posted(1)), Tells(Cast(5), Posted(2))];
    static TURN: [Row; 1] = [Turns(0, 1, Kind::Cast, 0, 1, &[Enters])];
    is_next(rt, core, None);
    play(rt, core, &POSTS);
    is_next(rt, core, Some((1, 3)));
    gets_enter_calls(rt, core);
    is_next(rt, core, Some((1, 3)));
    play(rt, core, &TURN);
    is_next(rt, core, Some((2, 5)));
}

#[test]
fn another_module_handles_the_event_that_was_shown(rt: HostRuntime) {
    let rt = Host::with_memory(rt);
    let mut core = begun(&rt, rt.alloc(), &PLAIN);
    is_replaced(&rt, &mut core);
    drop(core);
    rt.end_with_memory();
}
