//! A described machine of a table.
use super::host::{Host, got, holds, is_number, same};
use st_core::{Collected, Entry, Turns, TurnsEnd};
use st_embedded::{Begun, Lists, Machines, collect_at, post_at, run_at, start_described, stop_at};
use st_events::{PlainList, Refusal};
use st_table::{
    Expression, Interpreter, On, Operand, Place, Rule, Signal, StateRow, Table, Target, Value,
};
use std::alloc::Global;
use std::process::Abort;
use std::sync::Arc;

/// A list of one.
fn one<T: Drop>(rt: &Host<impl Abort>, alloc: Global, element: T) -> PlainList<T> {
    let mut list = PlainList::new(alloc);
    got(rt, "a list", list.push(element));
    list
}

/// A rule that leads to a state, and no more.
fn leads(alloc: Global, on: On, number: u32) -> Rule {
    Rule {
        on,
        symbol: None,
        guard: PlainList::new(alloc),
        updates: PlainList::new(alloc),
        target: Target::Next(Place { number }),
        asks: PlainList::new(alloc),
    }
}

/// A switch: a cast leads from the first state to the second, where nothing happens. Its last word is 4.
fn switch(rt: &Host<impl Abort>, alloc: Global) -> Table {
    let row = StateRow {
        entries: PlainList::new(alloc),
        rules: one(rt, alloc, leads(alloc, On::Cast, 1)),
    };
    Table {
        registers: PlainList::new(alloc),
        start: one(rt, alloc, leads(alloc, On::Any, 0)),
        enters: false,
        states: one(rt, alloc, row),
        any: PlainList::new(alloc),
        last: Expression {
            first: Operand::Constant(Value::Number(4)),
            terms: PlainList::new(alloc),
        },
    }
}

/// The switch starts in its first state, as the machine 1.
fn starts(rt: &Host<impl Abort>, all: &mut Machines) {
    let alloc = all.alloc;
    let table = got(rt, "a table", Arc::new(alloc, switch(rt, alloc)));
    let values = PlainList::new(alloc);
    let begun = start_described(all, Interpreter { table }, &values, 0);
    match got(rt, "a start", begun) {
        Begun::Running(number, report) => {
            is_number(rt, "a machine's number", number, 1);
            holds(rt, "its state", report.after.number == 0);
            all.lists = Lists::of(report);
        }
        _ => panic!(rt; "it does not run"),
    }
    holds(rt, "it asks for nothing", all.lists.set.len() == 0);
}

/// Something is said to the switch, and gets this number.
fn hears(rt: &Host<impl Abort>, all: &mut Machines, entry: Entry, wanted: u64) {
    let signal = Signal {
        symbol: 0,
        argument: Value::Nothing,
    };
    let number = got(rt, "a post", post_at(&mut all.described, 1, entry, signal));
    is_number(rt, "an event's number", number, wanted);
}

/// The events are handled, one and then the rest.
fn runs(rt: &Host<impl Abort>, all: &mut Machines) {
    for end in [TurnsEnd::AtMost, TurnsEnd::Idle] {
        let turns = run_at(&mut all.described, 1, 0, 1);
        let wanted = Turns { reported: 1, end };
        same(rt, "turns", &turns, &Some(wanted));
    }
    let state = match all.described.get(&1) {
        Some(core) => Some(core.state().number),
        None => None,
    };
    holds(rt, "its state", state == Some(1));
}

/// The call that nothing answered is open until the stop, and then told the reason.
fn ends(rt: &Host<impl Abort>, all: &mut Machines) {
    let open = collect_at(&mut all.described, 1, 2);
    holds(rt, "it waits", matches!(open, Some(Collected::Waiting)));
    holds(
        rt,
        "the last word",
        stop_at(&mut all.described, 1, 3) == Ok(4),
    );
    let told = collect_at(&mut all.described, 1, 2);
    holds(
        rt,
        "the reason",
        matches!(told, Some(Collected::Stopped(3))),
    );
}

#[test]
fn a_described_machine_runs_and_is_stopped(rt: HostRuntime) {
    let rt = Host::with_memory(rt);
    let mut all = Machines::new(rt.alloc());
    starts(&rt, &mut all);
    hears(&rt, &mut all, Entry::Cast, 1);
    hears(&rt, &mut all, Entry::Call, 2);
    runs(&rt, &mut all);
    ends(&rt, &mut all);
    holds(
        &rt,
        "no machine",
        run_at(&mut all.described, 2, 0, 1).is_none(),
    );
    let nobody = Err(Refusal::NoSuchMachine);
    holds(
        &rt,
        "nor is it stopped",
        stop_at(&mut all.described, 2, 3) == nobody,
    );
    rt.end_with_memory();
}
