//! The tests of st_core: what its machines answer, with memory and while an allocation is refused; and what
//! a crate above it can show by its clauses alone.
#![tactic(auto)]

mod journal;
#[cfg(test)]
mod tests;

pub use journal::{AnswerOf, AnswersOf, step_alone, turn_and_collect, two_runs, two_steps};
