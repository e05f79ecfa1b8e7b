//! What a call answers.

/// It was done, and what is told stands in the room for it.
pub const DONE: u32 = 0;

/// An input has more than 1,048,576 bytes.
pub const TOO_LONG: u32 = 1;

/// Memory was wanted and there was none.
pub const NO_MEMORY: u32 = 2;

/// It was done, and there is too little room for what is told.
pub const NO_ROOM: u32 = 3;

/// There is nothing of that number to be done.
pub const INVALID: u32 = 4;
