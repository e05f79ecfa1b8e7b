//! The tests of st_hosted: machines whose host is the test, and reports that were worked out by hand.
#![tactic(auto)]

#[cfg(test)]
mod tests;
