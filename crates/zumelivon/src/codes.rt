//! What calls answer beside the engine's own numbers of refusals.
//! c/zumelivon.h has their names and what they mean.

/// It was done.
pub const DONE: u32 = 0;

/// There is no memory.
pub const NO_MEMORY: u32 = 1;

/// The machine has ended.
pub const ENDED: u32 = 2;

/// The description has no such name, or no such number.
pub const NO_SUCH_NAME: u32 = 8;

/// The number names no machine of this family.
pub const NO_SUCH_MACHINE: u32 = 9;

/// There is no such thing, or not yet.
pub const NOTHING: u32 = 100;

/// What was handed in means nothing.
pub const INVALID: u32 = 101;

/// The room is too small.
pub const TOO_SMALL: u32 = 102;

/// No reply comes, for the machine stopped; or a start made no machine, for it stopped.
pub const STOPPED: u32 = 103;

/// It is not the event that the next turn handles.
pub const NOT_NEXT: u32 = 104;

/// The table is closed.
pub const CLOSED: u32 = 105;

/// The table is open.
pub const OPEN: u32 = 106;

/// There is no such request, or it was collected.
pub const GONE: u32 = 107;

/// The declarations are of another version.
pub const WRONG_VERSION: u32 = 108;

/// The description ignores such a start.
pub const IGNORED: u32 = 110;

/// The description has faults.
pub const FAULTY: u32 = 111;

/// There is no such description.
pub const NO_SUCH_DESCRIPTION: u32 = 112;

/// The version of the declarations.
pub const VERSION: u32 = 1;
