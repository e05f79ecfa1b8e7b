//! Journals that are changed by hand.

use super::told::Line;
use st_cell::{Answer, Command, Entry, Refusal, Refused, Turned};

/// What is changed in a journal, at the entry of a place, counted from 0.
#[derive(Clone, Copy)]
pub enum Change {
    /// Nothing.
    None,
    /// The number that a post was answered.
    Number(usize, u64),
    /// How many time-outs a tick is said to have made expire.
    Expired(usize, u64),
    /// The state after a turn.
    After(usize, u32),
    /// The content that was posted, as a cast.
    Content(usize, u32),
    /// A post is said to have found no memory.
    NoMemory(usize),
    /// The entry and the next one change places.
    Swapped(usize),
    /// The entry is left out.
    Dropped(usize),
}

/// What a turn did has another state after it.
fn with_after(did: &mut Turned<u32>, state: u32) {
    if let Turned::Reported(report) = did {
        report.after = state;
    }
}

/// The answer of a turn has another state after it.
fn with_state(answer: &mut Answer<u32, u32>, state: u32) {
    if let Answer::Turn(turned) = answer {
        if let Ok(did) = turned {
            with_after(did, state);
        }
    }
}

/// An entry has another answer.
fn with_answer(line: &mut Line, answer: Answer<u32, u32>) {
    line.answer = answer;
}

/// An entry has another command.
fn with_command(line: &mut Line, command: Command<u32>) {
    line.command = command;
}

/// One entry is changed.
fn change_one(line: &mut Line, what: Change) {
    match what {
        Change::Number(_, number) => with_answer(line, Answer::Post(Ok(number))),
        Change::Expired(_, expired) => with_answer(line, Answer::Tick(Ok(expired))),
        Change::After(_, state) => with_state(&mut line.answer, state),
        Change::Content(_, content) => with_command(line, Command::Post(Entry::Cast, content)),
        Change::NoMemory(_) => {
            with_answer(line, Answer::Post(Err(Refused::new(Refusal::NoMemory, 6))));
        }
        _ => {}
    }
}

/// Two entries change places.
fn swap(lines: &mut [Line], place: usize) {
    if place < lines.len() && lines.len() - place > 1 {
        lines.swap(place, place + 1);
    }
}

/// An entry is left out.
fn leave_out(lines: &mut Vec<Line>, place: usize) {
    if place < lines.len() {
        let _ = lines.remove(place);
    }
}

/// A journal is changed.
pub fn apply(lines: &mut Vec<Line>, what: Change) {
    match what {
        Change::None => {}
        Change::Swapped(place) => swap(lines.as_mut_slice(), place),
        Change::Dropped(place) => leave_out(lines, place),
        Change::Number(place, _)
        | Change::Expired(place, _)
        | Change::After(place, _)
        | Change::Content(place, _)
        | Change::NoMemory(place) => {
            if let Some(line) = lines.as_mut_slice().get_mut(place) {
                change_one(line, what);
            }
        }
    }
}
