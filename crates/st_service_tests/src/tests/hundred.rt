//! A hundred bells, which set, set anew and cancel the time-outs of each other, and are served by workers.
use super::chime::Chime::{HaveRung, StartsEach};
use super::step::Step;
use super::step::Step::{ClosesPool, OpensPool, Plays, RingInTurn};
use super::tower::tolls;
use st_core::Time;

/// A hundred bells, which would ring in an hour, tell each other when to ring.
#[test]
fn each_of_a_hundred_rings_in_its_time(rt: HostRuntime) {
    static STEPS: [Step; 5] = [
        Plays(&[StartsEach(100, Time::After(3_600_000))]),
        OpensPool,
        RingInTurn(100),
        ClosesPool(50),
        Plays(&[HaveRung(100)]),
    ];
    tolls(rt, &STEPS);
}
