//! A callback module that is data: a table, and the interpreter that runs it. It knows nothing of files, of names, nor
//! of the machine that it serves.
#![tactic(auto)]

mod actions;
mod arithmetic;
mod ask;
mod at_hand;
mod beginning;
mod enter_actions;
mod entering;
mod expression;
mod handling;
mod hiding;
mod interpreter;
mod matching;
mod on;
mod operand;
mod operator;
mod place;
mod raised;
mod relation;
mod replies;
mod rule;
mod say;
mod seen;
mod signal;
mod state_row;
mod table;
mod target;
mod term;
mod test;
mod update;
mod value;

pub use ask::Ask;
pub use expression::Expression;
pub use hiding::{covers, hider};
pub use interpreter::Interpreter;
pub use on::On;
pub use operand::Operand;
pub use operator::Operator;
pub use place::Place;
pub use raised::Raised;
pub use relation::Relation;
pub use rule::Rule;
pub use say::Say;
pub use signal::Signal;
pub use state_row::StateRow;
pub use table::Table;
pub use target::Target;
pub use term::Term;
pub use test::Test;
pub use update::Update;
pub use value::Value;
