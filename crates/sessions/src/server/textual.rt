//! How a machine is spoken to in lines.

use crate::server::Step;
use st_core::{Core, Module, Refusal};
use std::alloc::{AllocError, Global};

/// A module whose machine is spoken to in lines. The texts stand for themselves: a contract says nothing of them.
pub trait Textual: Module {
    /// What marks a line that calls the machine.
    const CALL: &'static str;

    /// What these words bring about.
    fn step_of(words: &[&str]) -> Step<Self::Content>;

    /// Starts the machine of a number, counted from 1, at a moment.
    fn start(alloc: Global, number: u32, moment: u64) -> Result<Option<Box<Core<Self>>>, Refusal>;

    /// What a reply says, by the state after it, behind its mark.
    fn reply_text(
        alloc: Global,
        content: Self::Content,
        after: Self::State,
    ) -> Result<String, AllocError>;

    /// What a message says, behind its mark.
    fn message_text(alloc: Global, content: Self::Content) -> Result<String, AllocError>;
}
