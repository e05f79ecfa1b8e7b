//! Calls that are made again for want of memory.
use super::host::{Host, holds};
use st_client::{Refusal, Refused};
use st_door::DoorContent;
use std::process::Abort;

/// A call was refused for want of memory, and is made again.
pub fn is_made_again(rt: &Host<impl Abort>, refusal: Refusal) {
    holds(rt, "memory was refused", refusal == Refusal::NoMemory);
    rt.retry();
}

/// A call was refused for want of memory, gave back the content that it was given, and is made again.
pub fn is_given_back(rt: &Host<impl Abort>, refused: &Refused<DoorContent>, content: DoorContent) {
    holds(rt, "the content comes back", refused.value == content);
    is_made_again(rt, refused.refusal);
}
