//! What a worker's round does, what pools of threads do, and what they do with messages, with memory and while an
//! allocation is refused.

mod chain;
mod counted;
mod eager;
mod flood;
mod host;
mod mail;
mod meeting;
mod memory;
mod messages;
mod noted;
mod pools;
mod ring;
mod silent;
mod slow;
mod started;
mod steps;
mod together;
mod workers;
