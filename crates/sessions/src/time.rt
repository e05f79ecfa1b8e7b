//! How time passes for a machine.

use st_core::{Core, Module, Refusal};

/// How many moments pass at one line, and how many turns are made and how many messages carried at one moment, at most.
pub const LIMIT: u32 = 1_000_000;

/// The moment at which the next time-out of a machine is due, if it has not ended and there is one.
pub fn due<M: Module>(core: &Core<M>) -> Option<u64> {
    if core.ended().is_some() {
        return None;
    }
    core.next_due()
}

/// Tells a machine that has not ended the moment.
pub fn tick<M: Module>(core: &mut Core<M>, moment: u64) -> Result<(), Refusal> {
    if core.ended().is_none() {
        core.tick_to(moment)?;
    }
    Ok(())
}
