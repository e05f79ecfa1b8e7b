//! The tests of st_table: tables that machines run, and reports that were worked out by hand.
#![tactic(auto)]

#[cfg(test)]
mod tests;
