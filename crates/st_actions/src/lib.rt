//! What a list of actions asks for. It knows nothing of the machine that asks.
#![tactic(auto)]

mod asking;
mod counts;
mod enter_planning;
mod in_order;
mod joining;
mod noted_timers;
mod once;
mod planned;
mod planning;
mod taking;

pub use counts::{Counts, count};
pub use enter_planning::plan_enter;
pub use joining::join;
pub use once::count_last;
pub use planned::Planned;
pub use planning::plan;
pub use st_events::{Actions, EnterActions, Inserts, Replies, Sends, Settings};
pub use taking::{take_insert, take_reply, take_send, take_setting};
