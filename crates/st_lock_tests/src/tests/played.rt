//! What rows are played over: each is a call, which is made again where it finds no memory.
use super::asked::{Asked, Given, refused};
use super::host::Host;
use super::past::Past;
use super::row::Row;
use super::seen::Seen;
use super::shows::shows;
use super::whole::{Whole, read_all};
use st_core::{MachineId, Refusal};
use std::process::Abort;

/// A cell, or a machine that threads share. What is done with any of them is proved with no contract of it at hand,
/// which makes these proofs short.
pub trait Played: Drop {
    /// Makes a call that may be refused. It is not made through a port that is not open.
    fn ask(&mut self, asked: Asked) -> Given;

    /// What can be read that takes no memory.
    fn see(&self) -> Seen;
}

/// Makes a call. Where there is no memory, it is made again.
pub fn asks<T: Played>(rt: &Host<impl Abort>, played: &mut T, asked: Asked) -> Given {
    let given = played.ask(asked);
    if given.refusal() != Some(Refusal::NoMemory) {
        return given;
    }
    drop(given);
    rt.retry();
    played.ask(asked)
}

/// Makes a call, or reads what is asked.
fn call<T: Played>(played: &mut T, asked: Asked) -> Given {
    if asked.is_read() {
        return Given::Answer(played.see().answer(asked));
    }
    played.ask(asked)
}

/// Looks that a refusal changed nothing that can be read, but a journal and its base.
fn is_as_before<T: Played>(rt: &Host<impl Abort>, played: &mut T, place: usize, before: &Whole) {
    let now = read_all(rt, played);
    let is_as_before = now == *before;
    drop(now);
    shows(rt, place, "a refusal changes nothing", is_as_before);
}

/// Makes the call of a row. Where it is refused, nothing that can be read has changed, but a journal and its base: at
/// these the caller looks.
pub fn asks_once<T: Played>(
    rt: &Host<impl Abort>,
    played: &mut T,
    row: &Row,
    place: usize,
) -> Given {
    let before = read_all(rt, played);
    let given = call(played, row.asked());
    if given.refusal().is_some() {
        is_as_before(rt, played, place, &before);
    }
    drop(before);
    given
}

/// Looks that a call that found no memory may find none, and that what it was given came back.
fn is_given_back(rt: &impl Abort, id: MachineId, place: usize, row: &Row, given: &Given) {
    shows(rt, place, "it takes no memory", row.takes_memory());
    let wanted = refused(id, row.asked(), Refusal::NoMemory);
    let is_back = given.is(&wanted);
    drop(wanted);
    shows(rt, place, "what it was given comes back", is_back);
}

/// Makes the call of a row again, where it found no memory: then what it was given came back.
pub fn asks_again<T: Played>(
    rt: &Host<impl Abort>,
    played: &mut T,
    row: &Row,
    past: &Past<'_>,
    given: Given,
) -> Given {
    if given.refusal() != Some(Refusal::NoMemory) {
        return given;
    }
    is_given_back(rt, past.id, past.done, row, &given);
    drop(given);
    rt.retry();
    played.ask(row.asked())
}

/// The row that empties the journal behind a list: its last one, where that hands the journal out, or else a cut. And
/// the rows before it.
pub fn parted(rows: &'static [Row]) -> (&'static [Row], Row) {
    if let Some((last, others)) = rows.split_last() {
        if last.hands_out() {
            return (others, *last);
        }
    }
    (rows, Row::Cuts)
}
