//! A door with a code lock, as a table.
//!
//! The digits of the buttons are one number below the modulus, which is 10 to the code's size, and how many there are
//! counts up to that size. So they are the code where there are as many and the numbers are one.
use super::building::{
    asking, giving, just, list, number, place, rule, say, term, test, update, where_holds, with,
};
use super::host::Host;
use st_core::{PlainList, Timer};
use st_table::{
    Ask, Expression, On, Operand, Operator, Relation, Rule, StateRow, Table, Target, Value,
};
use std::alloc::Global;
use std::process::Abort;

// The registers: the first four are what the door is given.
const CODE: u32 = 0;

const SIZE: u32 = 1;

const MODULUS: u32 = 2;

const PEER: u32 = 3;

pub const BUTTONS: u32 = 4;

pub const COUNT: u32 = 5;

// The symbols.
pub const NONE: u32 = 0;

pub const BUTTON: u32 = 1;

pub const CODE_LENGTH: u32 = 2;

pub const LENGTH: u32 = 3;

pub const RELAY: u32 = 4;

// The states.
pub const LOCKED: u32 = 0;

pub const OPEN: u32 = 1;

/// The buttons with the one that is pressed.
fn buttons(rt: &Host<impl Abort>, alloc: Global) -> Expression {
    let terms = [
        term(Operator::Times, number(10)),
        term(Operator::Plus, Operand::Argument),
        term(Operator::Remainder, Operand::Before(MODULUS)),
    ];
    with(rt, alloc, Operand::Before(BUTTONS), terms)
}

/// How many there are then, uncapped.
fn count(rt: &Host<impl Abort>, alloc: Global) -> Expression {
    let terms = [term(Operator::Plus, number(1))];
    with(rt, alloc, Operand::Before(COUNT), terms)
}

/// How many there are then, no more than the code has.
fn count_up(rt: &Host<impl Abort>, alloc: Global) -> Expression {
    let terms = [
        term(Operator::Plus, number(1)),
        term(Operator::Least, Operand::Before(SIZE)),
    ];
    with(rt, alloc, Operand::Before(COUNT), terms)
}

/// No button.
fn forgets(rt: &Host<impl Abort>, alloc: Global, rule: Rule) -> Rule {
    let updates = [
        update(BUTTONS, just(alloc, number(0))),
        update(COUNT, just(alloc, number(0))),
    ];
    giving(rule, list(rt, alloc, updates))
}

/// The button that opens the door.
fn opens(rt: &Host<impl Abort>, alloc: Global, on: On) -> Rule {
    let guard = [
        test(
            just(alloc, Operand::Register(SIZE)),
            Relation::AtMost,
            count(rt, alloc),
        ),
        test(
            buttons(rt, alloc),
            Relation::Equal,
            just(alloc, Operand::Register(CODE)),
        ),
    ];
    let leads = rule(alloc, on, Some(BUTTON), Target::Next(place(OPEN)));
    where_holds(forgets(rt, alloc, leads), list(rt, alloc, guard))
}

/// Any other button of a locked door: all are forgotten after 30,000 milliseconds in which nothing comes.
fn presses(rt: &Host<impl Abort>, alloc: Global, on: On) -> Rule {
    let updates = [
        update(BUTTONS, buttons(rt, alloc)),
        update(COUNT, count_up(rt, alloc)),
    ];
    let asks = [Ask::Set(
        Timer::Event,
        just(alloc, number(30_000)),
        say(NONE, nothing(alloc)),
    )];
    let stays = rule(alloc, on, Some(BUTTON), Target::Next(place(LOCKED)));
    asking(
        giving(stays, list(rt, alloc, updates)),
        list(rt, alloc, asks),
    )
}

/// Nothing.
fn nothing(alloc: Global) -> Expression {
    just(alloc, Operand::Constant(Value::Nothing))
}

/// A locked door.
fn locked(rt: &Host<impl Abort>, alloc: Global) -> StateRow {
    let entry = forgets(rt, alloc, rule(alloc, On::Any, None, Target::Keep));
    let late = rule(alloc, On::EventTimeout, None, Target::Next(place(LOCKED)));
    let rules = [
        opens(rt, alloc, On::Cast),
        presses(rt, alloc, On::Cast),
        opens(rt, alloc, On::Info),
        presses(rt, alloc, On::Info),
        forgets(rt, alloc, late),
    ];
    StateRow {
        entries: list(rt, alloc, [entry]),
        rules: list(rt, alloc, rules),
    }
}

/// A button of an open door waits.
fn waits(rt: &Host<impl Abort>, alloc: Global, on: On) -> Rule {
    let stays = rule(alloc, on, Some(BUTTON), Target::Keep);
    asking(stays, list(rt, alloc, [Ask::Postpone]))
}

/// An open door: it is locked again after 10,000 milliseconds.
fn open(rt: &Host<impl Abort>, alloc: Global) -> StateRow {
    let asks = [Ask::Set(
        Timer::State,
        just(alloc, number(10_000)),
        say(NONE, nothing(alloc)),
    )];
    let entry = asking(
        rule(alloc, On::Any, None, Target::Keep),
        list(rt, alloc, asks),
    );
    let rules = [
        waits(rt, alloc, On::Cast),
        waits(rt, alloc, On::Info),
        rule(alloc, On::StateTimeout, None, Target::Next(place(LOCKED))),
    ];
    StateRow {
        entries: list(rt, alloc, [entry]),
        rules: list(rt, alloc, rules),
    }
}

/// The size of the code is told, and a button is passed on.
fn any(rt: &Host<impl Abort>, alloc: Global) -> PlainList<Rule> {
    let length = Ask::Reply(
        Operand::Caller,
        say(LENGTH, just(alloc, Operand::Register(SIZE))),
    );
    let button = Ask::Send(
        Operand::Register(PEER),
        say(BUTTON, just(alloc, Operand::Argument)),
    );
    let told = rule(alloc, On::Call, Some(CODE_LENGTH), Target::Keep);
    let relayed = rule(alloc, On::Cast, Some(RELAY), Target::Keep);
    let rules = [
        asking(told, list(rt, alloc, [length])),
        asking(relayed, list(rt, alloc, [button])),
    ];
    list(rt, alloc, rules)
}

/// A start: the door is given its code, how many digits that has, 10 to that, and another door.
fn start(rt: &Host<impl Abort>, alloc: Global) -> PlainList<Rule> {
    let updates = [
        update(CODE, just(alloc, Operand::Before(0))),
        update(SIZE, just(alloc, Operand::Before(1))),
        update(MODULUS, just(alloc, Operand::Before(2))),
        update(PEER, just(alloc, Operand::Before(3))),
    ];
    let begins = rule(alloc, On::Any, None, Target::Next(place(LOCKED)));
    list(rt, alloc, [giving(begins, list(rt, alloc, updates))])
}

/// The door. Its last word is how many buttons count.
pub fn door(rt: &Host<impl Abort>, alloc: Global) -> Table {
    let registers = [
        Value::Number(0),
        Value::Number(0),
        Value::Number(1),
        Value::Nothing,
        Value::Number(0),
        Value::Number(0),
    ];
    Table {
        registers: list(rt, alloc, registers),
        start: start(rt, alloc),
        enters: true,
        states: list(rt, alloc, [locked(rt, alloc), open(rt, alloc)]),
        any: any(rt, alloc),
        last: just(alloc, Operand::Register(COUNT)),
    }
}
