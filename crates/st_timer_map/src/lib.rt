//! Values by timer, each timer at most once, in the order in which they were last put.
#![tactic(auto)]

mod bucket;
mod index;
mod mark;
mod slots;
mod timer_map;

pub use mark::Mark;
pub use st_events::Timer;
pub use timer_map::TimerMap;
