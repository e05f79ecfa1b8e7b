//! The moment, by what the clock gives.
ghost use Rattle.std.specs.Prelude.{◌≡◌, ◌<◌, ◌≤◌, ◌^◌};
ghost use Rattle.actor.specs.Moment.{moment_of};

use st_core::MOMENT_LIMIT;
use std::rt::Clock;
use std::time::Instant;

/// How many milliseconds have passed since the start. `None`: the clock cannot be read, or has gone too far.
pub(crate) fn passed<R: Clock>(rt: &R, start: &Instant) -> Option<u64> {
    let passed = start.elapsed(rt).ok()?;
    u64::try_from(passed.as_millis()).ok()
}

/// The moment where so many milliseconds have passed: none before the latest. Where nothing is known, or so many are too far for
/// a moment, it is the latest.
pub(crate) fn moment(passed: Option<u64>, latest: u64) -> u64
    requires within { latest < 2 ^ 63 }
    ensures moment { result ≡ moment_of passed latest }
    ensures later { latest ≤ result }
    ensures within { result < 2 ^ 63 }
{
    match passed {
        Some(passed) if passed < MOMENT_LIMIT => passed.max(latest),
        _ => latest,
    }
}
