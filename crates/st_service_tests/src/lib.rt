//! The tests of st_service: machines that are served, observed, refused more than may wait, and shut down. And those of
//! st_ticker: time-outs that come by themselves, none early, and what becomes of a ticker that is let go.
#![tactic(auto)]

mod order;
#[cfg(test)]
mod tests;
mod window;

pub use order::Order;
pub use window::Window;
