//! A bell, served by the thread that owns it.

mod bell;
mod channel;
mod host;
mod memory;
mod notes;
mod serving;
mod tower;
