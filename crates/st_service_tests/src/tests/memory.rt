//! Each call finds no memory once, and is made again.
use super::act::Act;
use super::act::Act::{Hires, Plays, ShutsDown};
use super::hiring::Hiring;
use super::host::Host;
use super::house::goes_by;
use super::ids::{FIRST, NOBODY};
use super::left::ANYTHING;
use super::opening::{OPTIONS, Opening};
use super::part::Part::At;
use super::reports::Reports;
use super::row::Row::{AwaitsSum, HasEnded, Tells};
use super::watchdog::Watchdog;
use crate::Order;

/// A clerk works, and the service of one worker ends. The report of each event was told once.
#[test]
fn a_service_finds_no_memory_once(rt: HostRuntime) {
    static OBSERVED: Opening = Opening {
        options: OPTIONS,
        reports: Some(Reports::OfEach),
    };
    static ACTS: [Act; 4] = [
        Hires(Some("anna"), NOBODY, Hiring::Runs(FIRST)),
        Plays(At(
            0,
            &[Tells(Order::Add(4)), Tells(Order::Later(1)), AwaitsSum(5)],
        )),
        ShutsDown(7, ANYTHING, None),
        Plays(At(0, &[HasEnded(7, 5)])),
    ];
    let threads = rt;
    let rt = Host::new(rt);
    let Some(watchdog) = Watchdog::start(threads, rt.alloc()) else {
        rt.retry();
        return;
    };
    goes_by(&rt, threads, 1, &OBSERVED, &ACTS);
    watchdog.end(threads);
    rt.end();
}
