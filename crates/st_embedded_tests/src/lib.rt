//! The tests of st_embedded: tables of machines, and answers that were worked out by hand.
#![tactic(auto)]

#[cfg(test)]
mod tests;
