//! The words of the command line: what they ask the program to do.
//! It knows nothing of scripts, machines or streams.
#![tactic(auto)]

mod asked;
mod order;
mod program;
mod words;

pub use order::Order;
pub use words::read_words;
