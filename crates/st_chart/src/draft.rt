//! A description as far as it was read.

use crate::expressions::alone;
use crate::{Marks, Operand, PlainList, Table, Value};
use std::alloc::Global;

/// A description as far as it was read.
#[derive(Drop)]
pub(crate) struct Draft {
    pub(crate) id: Option<String>,
    pub(crate) table: Table,
    pub(crate) marks: Marks,
}

impl Draft {
    pub(crate) fn new(alloc: Global) -> Draft {
        Draft {
            id: None,
            table: Table {
                registers: PlainList::new(alloc),
                start: PlainList::new(alloc),
                enters: false,
                states: PlainList::new(alloc),
                any: PlainList::new(alloc),
                last: alone(alloc, Operand::Constant(Value::Number(0))),
            },
            marks: Marks {
                start: PlainList::new(alloc),
                states: PlainList::new(alloc),
                any: PlainList::new(alloc),
            },
        }
    }
}
