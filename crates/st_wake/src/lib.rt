//! Who schedules machines. Clients hand tokens to it and know no pool; a pool takes them and knows no client.
#![tactic(auto)]

mod scheduling;
mod wake;

pub use scheduling::schedule;
pub use st_events::Token;
pub use wake::Wake;
