//! A look through a port beside the journal's last turn.
use super::answer::Answer::Id;
use super::ask::Ask::Start;
use super::begun::FIRST;
use super::hall_row::Act::{Asks, Opens, Posts, Shows, Turns};
use super::hall_row::Row;
use super::host::{got, holds, same};
use super::plain::Plain;
use super::plain_hall::hall_with_memory;
use st_hall::{Machine, Port};
use st_lock::{Answer, Command, JournalEntry, Turned};
use std::process::Abort;
use std::sync::Wait;

/// What is seen of a turn: the number of its entry, its moment, the event that it handled, the state that it left, and how many
/// events it inserted.
#[derive(Clone, Copy, PartialEq)]
pub struct LastTurn {
    number: u64,
    now: u64,
    event: Option<u64>,
    state: u32,
    inserted: usize,
}

/// What is seen of an entry, if it is a turn with an event.
fn turn_of(entry: &JournalEntry<u32, u32>) -> Option<LastTurn> {
    match (&entry.command, &entry.answer) {
        (Command::Turn(now), Answer::Turn(Ok(Turned::Reported(report)))) => Some(LastTurn {
            number: entry.number,
            now: *now,
            event: report.event,
            state: report.after,
            inserted: report.inserted.as_slice().len(),
        }),
        _ => None,
    }
}

/// The last entry of a machine's journal, if it is a turn with an event.
fn last_turn(rt: &impl Abort, threads: &impl Wait, machine: &Machine<Plain>) -> Option<LastTurn> {
    let journal = got(rt, "there is memory", machine.journal(threads, "plain"));
    let last = journal.entries.as_slice().last();
    let turn = turn_of(last.expect(rt, "it was served"));
    drop(journal);
    turn
}

/// Looks at a machine that was posted one event: what is seen is what the last turn reported, which handled this event and
/// inserted so many.
pub fn shows(
    rt: &impl Abort,
    threads: &impl Wait,
    port: &mut Port<Plain>,
    word: &str,
    event: u64,
    inserted: usize,
) {
    let look = got(rt, "there is memory", port.look(threads));
    let seen = LastTurn {
        number: look.entries,
        now: 5,
        event: Some(event),
        state: look.state,
        inserted: look.waiting,
    };
    let reported = last_turn(rt, threads, port.machine());
    holds(rt, word, reported == Some(seen));
    same(rt, word, &look.held, &7);
    same(rt, word, &look.mine, &1);
    same(rt, word, &look.waiting, &inserted);
    drop(look);
}

#[test]
fn a_look_shows_what_the_last_turn_reported(rt: HostRuntime) {
    static ROWS: [Row; 7] = [
        ("a machine", Asks(Start(None), Id(FIRST))),
        ("its port", Opens(FIRST)),
        ("the first event", Posts(1)),
        ("one more event waits", Turns(true)),
        ("the event that it inserted", Shows(1, 1)),
        ("no event waits", Turns(false)),
        ("no event was inserted", Shows(2, 0)),
    ];
    hall_with_memory(rt, 0, &ROWS);
}
