//! The names of a description.

use crate::Names;
use std::alloc::Global;

/// The names of a description, by the numbers that its table has.
#[derive(Drop)]
pub struct Vocabulary {
    /// The states.
    pub states: Names,
    /// The symbols of events, replies and messages. Whoever runs the machine may add those that only events have.
    pub symbols: Names,
    /// The registers.
    pub registers: Names,
    /// The arguments of a start.
    pub arguments: Names,
    /// The named time-outs.
    pub timers: Names,
}

impl Vocabulary {
    /// No names. It takes no memory.
    pub fn new(alloc: Global) -> Vocabulary {
        Vocabulary {
            states: Names::new(alloc),
            symbols: Names::new(alloc),
            registers: Names::new(alloc),
            arguments: Names::new(alloc),
            timers: Names::new(alloc),
        }
    }
}
