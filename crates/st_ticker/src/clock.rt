//! The moment, by a clock that never goes back.
ghost use Rattle.std.specs.Prelude.{◌<◌, ◌^◌};

use std::rt::Clock;
use std::time::Instant;

/// The last moment that a machine can be told.
const LAST: u64 = (1 << 63) - 1;

/// How many milliseconds have passed since `start`, at most 2^63 - 1. Where the clock cannot be read it is 0, which
/// machines take for the latest moment that they have seen.
pub(crate) fn moment<R: Clock>(rt: &R, start: Instant) -> u64
    ensures below { result < 2 ^ 63 }
{
    match start.elapsed(rt) {
        Ok(passed) => match u64::try_from(passed.as_millis()) {
            Ok(moment) => moment.min(LAST),
            Err(_) => LAST,
        },
        Err(_) => 0,
    }
}
