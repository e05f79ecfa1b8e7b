//! What the lists of one machine answer, with memory and while an allocation is refused.

mod agenda;
mod due;
mod host;
mod long_list;
mod outbox;
mod queue;
mod requests;
mod timeouts;
mod timer_map;
