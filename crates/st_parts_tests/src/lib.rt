//! Tests of the words that all crates share, and of the parts around a machine: what its actions ask for, collections,
//! directories, locks, run queues, traces, lines of JSON, sequences and the words of a command line.
#![tactic(auto)]

#[cfg(test)]
mod tests;
