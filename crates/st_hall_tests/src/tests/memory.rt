//! A hall where one allocation is refused: nothing changes, what was handed in comes back, and the call is made again.
use super::answer::Answer::{Count, Id, Refused};
use super::ask::Ask::{Len, Start, Whereis};
use super::begun::FIRST;
use super::hall_row::Act::{Asks, Ids, Names};
use super::hall_row::Row;
use super::plain_hall::empty_hall;
use st_hall::Refusal;

#[test]
fn a_refused_call_changes_nothing(rt: HostRuntime) {
    static ROWS: [Row; 5] = [
        ("there is no machine", Asks(Len, Count(0))),
        (
            "there is no name",
            Asks(Whereis("front"), Refused(Refusal::NoSuchName)),
        ),
        (
            "it runs, and has no work",
            Asks(Start(Some("front")), Id(FIRST)),
        ),
        ("its name", Names(&[("front", FIRST)])),
        ("its id", Ids(&[FIRST])),
    ];
    empty_hall(rt, &ROWS);
}
