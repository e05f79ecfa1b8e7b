//! A clerk, as a table: who is named as the clerk is greeted, and any time-out ends it.
use super::building::{
    asking, giving, just, list, number, place, rule, say, term, test, update, where_holds, with,
};
use super::host::Host;
use st_core::{PlainList, Timer};
use st_table::{
    Ask, Expression, On, Operand, Operator, Relation, Rule, StateRow, Table, Target, Value,
};
use std::alloc::Global;
use std::process::Abort;

// The register: the clerk's name.
pub const NAME: u32 = 0;

// The symbols.
pub const GREET: u32 = 1;

pub const KNOWN: u32 = 2;

pub const STRANGER: u32 = 3;

pub const WHO: u32 = 4;

pub const ME: u32 = 5;

pub const QUIT: u32 = 6;

pub const BYE: u32 = 7;

pub const RING: u32 = 8;

/// The clerk's name.
fn name(alloc: Global) -> Expression {
    just(alloc, Operand::Register(NAME))
}

/// A call that is replied to.
fn replies(
    rt: &Host<impl Abort>,
    alloc: Global,
    called: u32,
    symbol: u32,
    argument: Operand,
) -> Rule {
    let reply = Ask::Reply(Operand::Caller, say(symbol, just(alloc, argument)));
    let stays = rule(alloc, On::Call, Some(called), Target::Keep);
    asking(stays, list(rt, alloc, [reply]))
}

/// One of the clerk's name is known.
fn knows(rt: &Host<impl Abort>, alloc: Global) -> Rule {
    let same = test(just(alloc, Operand::Argument), Relation::Equal, name(alloc));
    let greets = replies(rt, alloc, GREET, KNOWN, Operand::Register(NAME));
    where_holds(greets, list(rt, alloc, [same]))
}

/// A call that ends the clerk: it says goodbye.
fn quits(rt: &Host<impl Abort>, alloc: Global) -> Rule {
    let reply = Ask::Reply(Operand::Caller, say(BYE, name(alloc)));
    let stops = rule(
        alloc,
        On::Call,
        Some(QUIT),
        Target::Stop(just(alloc, number(3))),
    );
    asking(stops, list(rt, alloc, [reply]))
}

/// The clerk's only state.
fn serving(rt: &Host<impl Abort>, alloc: Global) -> StateRow {
    let rules = [
        knows(rt, alloc),
        replies(rt, alloc, GREET, STRANGER, Operand::Argument),
        replies(rt, alloc, WHO, ME, Operand::Own),
        quits(rt, alloc),
        rule(
            alloc,
            On::AnyTimeout,
            None,
            Target::Stop(just(alloc, number(5))),
        ),
    ];
    StateRow {
        entries: PlainList::new(alloc),
        rules: list(rt, alloc, rules),
    }
}

/// A start that is given this does not begin.
fn refuses(rt: &Host<impl Abort>, alloc: Global, given: Value, target: Target) -> Rule {
    let same = test(
        just(alloc, Operand::Before(0)),
        Relation::Equal,
        just(alloc, Operand::Constant(given)),
    );
    where_holds(rule(alloc, On::Any, None, target), list(rt, alloc, [same]))
}

/// A start with a name: a timer runs for 500 milliseconds.
fn begins(rt: &Host<impl Abort>, alloc: Global) -> Rule {
    let named = update(NAME, just(alloc, Operand::Before(0)));
    let time = just(alloc, number(500));
    let rings = Ask::Set(Timer::Named(8), time, say(RING, name(alloc)));
    let starts = rule(alloc, On::Any, None, Target::Next(place(0)));
    let named = giving(starts, list(rt, alloc, [named]));
    asking(named, list(rt, alloc, [rings]))
}

/// The clerk. Its last word is the reason and one.
pub fn clerk(rt: &Host<impl Abort>, alloc: Global) -> Table {
    let start = [
        refuses(
            rt,
            alloc,
            Value::Nothing,
            Target::Stop(just(alloc, number(4))),
        ),
        refuses(rt, alloc, Value::Number(0), Target::Keep),
        begins(rt, alloc),
    ];
    let one_more = [term(Operator::Plus, number(1))];
    Table {
        registers: list(rt, alloc, [Value::Nothing]),
        start: list(rt, alloc, start),
        enters: false,
        states: list(rt, alloc, [serving(rt, alloc)]),
        any: PlainList::new(alloc),
        last: with(rt, alloc, Operand::Argument, one_more),
    }
}
