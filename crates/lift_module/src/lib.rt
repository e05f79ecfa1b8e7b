//! The modules of a lift, the cabin and its door, to be copied: another crate runs them.
#![tactic(auto)]

mod cabin;
mod content;
mod door;
mod gap;
mod journey;
mod motion;

pub use cabin::Cabin;
pub use content::Content;
pub use door::Door;
pub use gap::Gap;
pub use journey::Journey;
pub use motion::Motion;
