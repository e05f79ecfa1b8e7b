//! The tests of st_registry, st_client and st_hall: what machines in registries answer, also while an allocation is
//! refused, and what threads and pools of workers make of them.
#![tactic(auto)]

#[cfg(test)]
mod tests;
