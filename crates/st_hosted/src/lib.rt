//! Machines whose callbacks a host answers, in whatever language: it is shown the next event, and hands in what it
//! answers as a plain value, with which the turn is made.
//! It knows nothing of how the host comes to its answers, nor of handles, threads, names.
#![tactic(auto)]

mod begin;
mod copies;
mod host_answer;
mod host_entered;
mod host_outcome;
mod laws;
mod not_turned;
mod payload;
mod stopping;
mod turning;
mod why_not;

pub use begin::Begin;
pub use host_answer::HostAnswer;
pub use host_entered::HostEntered;
pub use host_outcome::HostOutcome;
pub use laws::{
    a_hosted_run_is_accounted, a_hosted_run_is_lawful, an_event_that_was_shown_stays_next,
};
pub use not_turned::NotTurned;
pub use payload::Payload;
pub use stopping::stop_by;
pub use turning::turn_by;
pub use why_not::WhyNot;
