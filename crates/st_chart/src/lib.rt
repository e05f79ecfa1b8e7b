//! A machine's description: a JSON text, read to a table with its names. It knows nothing of how machines run.
#![tactic(auto)]

mod actions;
mod chart;
mod draft;
mod events;
mod expressions;
mod fault;
mod faults;
mod guard;
mod lists;
mod machine;
mod marks;
mod members;
mod names;
mod naming;
mod operand;
mod places;
mod read;
mod reading;
mod rules;
mod scope;
mod states;
mod syntax;
mod tree;
mod vocabulary;
mod wording;
mod words;

pub use chart::Chart;
pub use fault::Fault;
pub use marks::{Mark, Marks, RowMarks};
pub use names::Names;
pub use read::{Unread, read_chart};
pub use st_events::{MachineId, PlainList, PlainText, Tag, Timer};
pub use st_table::{
    Ask, Expression, Interpreter, On, Operand, Operator, Place, Raised, Relation, Rule, Say,
    Signal, StateRow, Table, Target, Term, Test, Update, Value,
};
pub use vocabulary::Vocabulary;
