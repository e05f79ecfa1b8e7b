//! What tables are made of, in few words.
use super::host::{Host, got};
use st_core::PlainList;
use st_events::PlainText;
use st_table::{
    Ask, Expression, On, Operand, Operator, Place, Relation, Rule, Say, Target, Term, Test, Update,
    Value,
};
use std::alloc::Global;
use std::process::Abort;

/// A list. Where there is no memory for it, it is made again.
pub fn list<T: Drop, const N: usize>(
    rt: &Host<impl Abort>,
    alloc: Global,
    elements: [T; N],
) -> PlainList<T> {
    match Vec::from_array(alloc, elements) {
        Ok(elements) => PlainList::from(elements),
        Err(failed) => {
            rt.retry();
            let elements = Vec::from_array(alloc, failed.value);
            PlainList::from(got(rt, "one allocation alone is refused", elements))
        }
    }
}

/// A text. Where there is no memory for it, it is made again.
pub fn text(rt: &Host<impl Abort>, alloc: Global, text: &str) -> Value {
    match PlainText::copied(alloc, text) {
        Ok(text) => Value::Text(text),
        Err(_) => {
            rt.retry();
            let again = PlainText::copied(alloc, text);
            Value::Text(got(rt, "one allocation alone is refused", again))
        }
    }
}

/// A number.
pub fn number(number: u64) -> Operand {
    Operand::Constant(Value::Number(number))
}

/// An operand alone.
pub fn just(alloc: Global, first: Operand) -> Expression {
    Expression {
        first,
        terms: PlainList::new(alloc),
    }
}

/// An operand, and terms.
pub fn with<const N: usize>(
    rt: &Host<impl Abort>,
    alloc: Global,
    first: Operand,
    terms: [Term; N],
) -> Expression {
    Expression {
        first,
        terms: list(rt, alloc, terms),
    }
}

/// A term.
pub fn term(operator: Operator, operand: Operand) -> Term {
    Term { operator, operand }
}

/// A comparison.
pub fn test(left: Expression, relation: Relation, right: Expression) -> Test {
    Test {
        left,
        relation,
        right,
    }
}

/// A register is given a value.
pub fn update(register: u32, value: Expression) -> Update {
    Update { register, value }
}

/// What is said.
pub fn say(symbol: u32, argument: Expression) -> Say {
    Say { symbol, argument }
}

/// A state.
pub fn place(number: u32) -> Place {
    Place { number }
}

/// A rule without a guard that changes no register.
pub fn rule(alloc: Global, on: On, symbol: Option<u32>, target: Target) -> Rule {
    Rule {
        on,
        symbol,
        guard: PlainList::new(alloc),
        updates: PlainList::new(alloc),
        target,
        asks: PlainList::new(alloc),
    }
}

/// The same rule, which asks for this.
pub fn asking(rule: Rule, asks: PlainList<Ask>) -> Rule {
    let Rule {
        on,
        symbol,
        guard,
        updates,
        target,
        asks: _,
    } = rule;
    Rule {
        on,
        symbol,
        guard,
        updates,
        target,
        asks,
    }
}

/// The same rule, which gives registers this.
pub fn giving(rule: Rule, updates: PlainList<Update>) -> Rule {
    let Rule {
        on,
        symbol,
        guard,
        updates: _,
        target,
        asks,
    } = rule;
    Rule {
        on,
        symbol,
        guard,
        updates,
        target,
        asks,
    }
}

/// The same rule, which is taken where this holds.
pub fn where_holds(rule: Rule, guard: PlainList<Test>) -> Rule {
    let Rule {
        on,
        symbol,
        guard: _,
        updates,
        target,
        asks,
    } = rule;
    Rule {
        on,
        symbol,
        guard,
        updates,
        target,
        asks,
    }
}
