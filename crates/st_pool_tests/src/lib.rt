//! The tests of st_pool: what a worker's round does, and what pools of threads do, over machines that only count.
#![tactic(auto)]

#[cfg(test)]
mod tests;
