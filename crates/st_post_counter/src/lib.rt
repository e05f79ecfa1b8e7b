//! The counter of a port's posts: one word, and two endpoints on it, the machine's and the port's.
//! The word is how many posts the machine's endpoint has seen; what any other has seen is a beginning of those.
//! It knows nothing of machines, journals and locks, and nothing of what a post is.
#![tactic(auto)]

mod counter;
mod endpoint;
mod law;
mod seen;
mod steps;
#[cfg(test)]
mod tests;

pub use counter::Counter;
pub use endpoint::Endpoint;
pub use law::the_word_counts_one_history;
pub use seen::Seen;
pub use steps::Addition;
