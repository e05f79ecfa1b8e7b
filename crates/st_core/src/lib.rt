//! One machine as a sequential object: each call is one step of the manual.
//! It knows nothing of locks, threads, names, other machines.
#![tactic(auto)]

mod added;
mod answering;
mod course;
mod decisions;
mod engine;
mod gathered;
mod going_on;
mod laws;
mod machine_state;
mod messages;
mod new_data;
mod numbers;
mod opening;
mod post;
mod prepared;
mod replies;
mod run;
mod sending;
mod snapshot;
mod start;
mod stop;
mod tick;
mod turn;
mod turns;
mod turns_end;
mod until_idle;

pub use engine::Core;
pub use laws::{
    a_machine_is_lawful, a_run_is_accounted, a_run_keeps_machines_lawful, a_start_is_lawful,
    a_state_change_is_a_change_of_value, peek_shows_what_collect_hands_out,
    waiting_counts_what_is_accounted,
};
pub use machine_state::MachineState;
pub use snapshot::Snapshot;
pub use st_agenda::{Item, Schedule};
pub use st_answers::{Answer, Call, Calls, Command, Done, Entry, OneInline, Report, Turned};
pub use st_events::{
    Action, Actions, Decision, EnterAction, EnterActions, EnterOutcome, Event, Init, Kind,
    MOMENT_LIMIT, MachineId, Message, Module, NUMBER_LIMIT, Outcome, PlainList, Reason, Refusal,
    Refused, Replies, SmallList, Tag, Time, Timer,
};
pub use st_outbox::Outbox;
pub use st_requests::{Collected, Held, Request, RequestState};
pub use st_timeouts::{Due, Running};
pub use start::Start;
pub use turns::Turns;
pub use turns_end::TurnsEnd;
