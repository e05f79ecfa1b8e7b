//! What a ticker does behind each turn.
use crate::halls::empty;
use crate::load::Load;
use st_core::{MachineId, Refusal};
use st_hall::Started;
use st_pool::Runtime;
use st_ticker::Ticker;
use std::alloc::Global;
use std::rt::Clock;
use std::sync::Arc;
use std::time::Instant;

/// A ticker of a hall.
pub type LoadTicker<R> = Ticker<Load, R>;

/// A ticker of a hall with one machine, which has no time-out.
fn ticker<R: Runtime + Clock>(
    rt: R,
    alloc: Global,
) -> Result<Option<(Arc<LoadTicker<R>>, MachineId)>, Refusal> {
    let hall = empty(rt, alloc)?;
    let Ok(start) = Instant::now(&rt) else {
        return Ok(None);
    };
    let ticker = Ticker::new(rt, alloc, start, &hall)?;
    match hall.start(None, Load, &0, ticker.now()) {
        Ok(Started::Running { id, .. }) => Ok(Some((ticker, id))),
        Ok(Started::Ignored) => Ok(None),
        Ok(Started::Stopped(_)) => Ok(None),
        Err(refused) => Err(refused.refusal),
    }
}

/// A ticker looks so many times when a machine is due that has no time-out, as it does behind each turn. Answers how many
/// looks found memory.
pub fn watch_each<R: Runtime + Clock>(rt: R, alloc: Global, count: u32) -> Result<u64, Refusal> {
    let Some((ticker, id)) = ticker(rt, alloc)? else {
        return Ok(0);
    };
    let mut looks = 0u64;
    for _ in 0..count {
        if ticker.watch(id).is_ok() {
            looks = looks.saturating_add(1);
        }
    }
    Ok(looks)
}
