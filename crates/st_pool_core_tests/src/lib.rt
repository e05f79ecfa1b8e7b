//! The tests of st_pool_core: what its pools answer, with memory and while an allocation is refused.
#![tactic(auto)]

#[cfg(test)]
mod tests;
