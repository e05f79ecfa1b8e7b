//! The module of a connection of a pool, to be copied: another crate runs it.
#![tactic(auto)]

mod connection;
mod content;
mod history;
mod link;
mod place;

pub use connection::Connection;
pub use content::Content;
pub use history::History;
pub use link::Link;
pub use place::Place;
