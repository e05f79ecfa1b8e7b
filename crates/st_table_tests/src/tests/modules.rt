//! What the module of a table does for whoever calls it.
use super::building::{just, list, number, place, rule, test, text, where_holds};
use super::clerk::clerk;
use super::host::{Host, got, holds, is_number};
use super::machine::{module, signal};
use st_events::{Module, PlainList};
use st_table::{Interpreter, On, Operand, Relation, Rule, Signal, Target, Value, covers};
use std::alloc::Global;
use std::process::Abort;

/// A copy of a signal. Where there is no memory for it, it is made again.
fn copied(rt: &Host<impl Abort>, alloc: Global, module: &Interpreter, signal: &Signal) -> Signal {
    match module.copy_content(alloc, signal) {
        Ok(copy) => copy,
        Err(_) => {
            rt.retry();
            let copy = module.copy_content(alloc, signal);
            got(rt, "one allocation alone is refused", copy)
        }
    }
}

/// A copy of registers. Where there is no memory for it, it is made again.
fn all_copied(
    rt: &Host<impl Abort>,
    alloc: Global,
    module: &Interpreter,
    registers: &PlainList<Value>,
) -> PlainList<Value> {
    match module.copy_data(alloc, registers) {
        Ok(copy) => copy,
        Err(_) => {
            rt.retry();
            let copy = module.copy_data(alloc, registers);
            got(rt, "one allocation alone is refused", copy)
        }
    }
}

#[test]
fn copies_are_the_same(rt: HostRuntime) {
    let rt = Host::new(rt);
    let alloc = rt.alloc();
    let interpreter = module(&rt, alloc, clerk(&rt, alloc));
    let said = signal(1, text(&rt, alloc, "ann"));
    let copy = copied(&rt, alloc, &interpreter, &said);
    holds(&rt, "of a signal", copy == said);
    let registers = list(&rt, alloc, [Value::Number(7), said.argument]);
    let copy = all_copied(&rt, alloc, &interpreter, &registers);
    holds(&rt, "of registers", copy == registers);
    holds(&rt, "there are no enter calls", !interpreter.enters());
    let word = interpreter.terminate(41, place(0), &registers);
    is_number(
        &rt,
        "the last word is the reason and one",
        u64::from(word),
        42,
    );
    rt.end();
}

/// A rule that keeps the state.
fn keeps(alloc: Global, on: On, symbol: Option<u32>) -> Rule {
    rule(alloc, on, symbol, Target::Keep)
}

/// The same with a guard.
fn guarded(rt: &Host<impl Abort>, alloc: Global, rule: Rule) -> Rule {
    let guard = test(
        just(alloc, Operand::Register(0)),
        Relation::Less,
        just(alloc, number(3)),
    );
    where_holds(rule, list(rt, alloc, [guard]))
}

/// Whether one covers the other, which are let go.
fn hides(earlier: Rule, later: Rule) -> bool {
    covers(&earlier, &later)
}

#[test]
fn a_rule_covers_those_that_want_less(rt: HostRuntime) {
    let rt = Host::new(rt);
    let alloc = rt.alloc();
    let hidden = hides(
        keeps(alloc, On::Call, None),
        keeps(alloc, On::Call, Some(1)),
    );
    holds(&rt, "any symbol covers one", hidden);
    let hidden = hides(
        keeps(alloc, On::Call, Some(1)),
        keeps(alloc, On::Call, None),
    );
    holds(&rt, "one does not cover any", !hidden);
    let ring = keeps(alloc, On::NamedTimeout(8), Some(1));
    let hidden = hides(keeps(alloc, On::AnyTimeout, None), ring);
    holds(&rt, "any time-out covers one", hidden);
    rt.end();
}

#[test]
fn a_rule_with_a_guard_covers_none(rt: HostRuntime) {
    let rt = Host::new(rt);
    let alloc = rt.alloc();
    let few = guarded(&rt, alloc, keeps(alloc, On::Call, None));
    let hidden = hides(few, keeps(alloc, On::Call, Some(1)));
    holds(&rt, "one with a guard covers none", !hidden);
    let few = guarded(&rt, alloc, keeps(alloc, On::Call, Some(1)));
    let hidden = hides(keeps(alloc, On::Call, None), few);
    holds(&rt, "and is covered", hidden);
    rt.end();
}
