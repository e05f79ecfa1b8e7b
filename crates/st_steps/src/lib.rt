//! A count that contracts see and that takes no memory: how often something was looked at.
#![tactic(auto)]

mod steps;

pub use steps::Steps;
