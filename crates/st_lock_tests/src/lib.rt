//! The tests of st_cell, st_lock and st_replay: what cells and machines answer, with memory and while an allocation is
//! refused, what threads that share a machine see, and whether journals are replayed.
#![tactic(auto)]

#[cfg(test)]
mod tests;
