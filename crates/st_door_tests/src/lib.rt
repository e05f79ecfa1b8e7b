//! Tests of the door, of the script runner, and of scripts whose doors are served by workers, through what their crates make
//! public.
#![tactic(auto)]

#[cfg(test)]
mod tests;
