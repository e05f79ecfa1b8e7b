//! Doors run until they rest.
ghost use Rattle.std.specs.Prelude.{◌≡◌, ◌≤◌, length, IfOk, OnOk};
ghost use Rattle.st_doors.specs.Doors.{IsFirst, RestsOutside, SameLabels, door_limit, is_ready_door};
ghost use Rattle.st_doors.specs.Settling.{gone_on, run_until_idle, turn_limit};

use crate::late_doors::LateDoors;
use crate::service::Service;
use std::alloc::AllocError;

/// How many turns and deliveries are made for one line.
const TURN_LIMIT: u32 = 1_000_000;

/// The first ready door goes on: its first message is taken out and delivered, or it gets a turn.
fn go_on(doors: &mut LateDoors, place: usize, moment: u64) -> Result<(), AllocError>
    requires { IsFirst is_ready_door doors.old place }
    ensures gone_on { OnOk result (doors.new ≡ gone_on moment doors.old) }

    // Whatever the answer is.
    ensures same_labels { SameLabels doors.old doors.new }
{
    if !doors.has_message_at(place) {
        doors.serve_at(place, Service::Turn(moment))?;
        return Ok(());
    }
    let Some(message) = doors.serve_at(place, Service::TakeOut)? else {
        unreachable!()
    };
    let Some(target) = doors.place_of_id(message.target) else {
        return Ok(());
    };
    doors.serve_at(target, Service::Deliver(message))?;
    Ok(())
}

/// As long as a door is ready, the first ready one goes on, but no more often than the limit of turns. Only the doors from one
/// place up to another may be ready. It answers from which place up to which other some still may be.
///
/// Ours: docs/SCRIPTS.md.
pub fn run_until_idle(
    doors: &mut LateDoors,
    from: usize,
    until: usize,
    moment: u64,
) -> Result<(usize, usize), AllocError>
    requires within { until ≤ length doors.old }
    requires few { length doors.old ≤ door_limit }
    requires resting { RestsOutside from until doors.old }
    ensures rested { OnOk result (doors.new ≡ run_until_idle turn_limit moment doors.old) }
    ensures ordered { IfOk result (λ places. places.0 ≤ places.1) }
    ensures within { IfOk result (λ places. places.1 ≤ length doors.new) }
    ensures resting { IfOk result (λ places. RestsOutside places.0 places.1 doors.new) }

    // Whatever the answer is.
    ensures same_labels { SameLabels doors.old doors.new }
{
    if from >= until {
        return Ok((0, 0));
    }
    for _ in 0..TURN_LIMIT {
        let Some(place) = doors.first_ready()? else {
            return Ok((0, 0));
        };
        go_on(doors, place, moment)?;
    }
    Ok((0, doors.len()))
}
