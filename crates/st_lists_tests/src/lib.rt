//! Tests of the lists that one machine keeps (its events, the time-outs that run, its requests, and what waits and runs
//! as one), and of the machines that are due.
#![tactic(auto)]

#[cfg(test)]
mod tests;
