//! The same commands by single calls, and by one run.
use super::begin::Begin;
use super::host::{Host, holds, is_count};
use super::machine::{Machine, read_all};
use super::row::Row;
use super::seen::{Running, Seen, Whole, ends, is_all};
use super::shown::{agree, read};
use super::table::Table;
use super::tested::{does, play, run};
use super::told::without_memory;
use st_core::Answer;
use std::alloc::Global;
use std::process::Abort;

/// Looks at the answers to commands, and at what they leave, with the time-outs that run. They are told to two
/// machines that have started alike: to one by single calls, to the other by one run.
pub fn both_ways<T: Machine>(
    rt: &Host<impl Abort>,
    alloc: Global,
    begin: &Begin<Table>,
    rows: &[Row],
    end: &Seen,
    timers: &[Running],
) {
    let whole = by_single_calls::<T>(rt, alloc, begin, rows);
    ends(rt, &whole, end, timers);
    if !by_one_run::<T>(rt, alloc, begin, rows, &whole) {
        rt.retry();
        let found = by_one_run::<T>(rt, alloc, begin, rows, &whole);
        holds(rt, "one allocation alone is refused", found);
    }
}

/// What commands leave that are done by single calls. Their answers are looked at.
fn by_single_calls<T: Machine>(
    rt: &Host<impl Abort>,
    alloc: Global,
    begin: &Begin<Table>,
    rows: &[Row],
) -> Whole {
    let mut single = T::begun(rt, alloc, begin);
    play(rt, &mut single, rows);
    let whole = read_all(rt, &single);
    drop(single);
    whole
}

/// Does commands by one run, and looks at their answers, and that they leave what they left by single calls. Says
/// whether each found memory; where one found none, all is as by single calls without that command.
fn by_one_run<T: Machine>(
    rt: &Host<impl Abort>,
    alloc: Global,
    begin: &Begin<Table>,
    rows: &[Row],
    whole: &Whole,
) -> bool {
    let mut at_once = T::begun(rt, alloc, begin);
    let answers = run(rt, alloc, &mut at_once, rows);
    is_count(rt, "each command has its answer", answers.len(), rows.len());
    let left = read_all(rt, &at_once);
    let found = all_found_memory(answers.as_slice());
    if found {
        answers_agree(rt, answers.as_slice(), rows);
        is_all(rt, &left, whole);
    } else {
        let others = without_refused::<T>(rt, alloc, begin, rows, answers.as_slice());
        is_all(rt, &left, &others);
    }
    drop(answers);
    drop(at_once);
    found
}

/// Says whether no command found no memory.
fn all_found_memory(answers: &[Answer<u32, u32>]) -> bool {
    for answer in answers {
        if read(answer).found_no_memory() {
            return false;
        }
    }
    true
}

/// Looks that an answer, where there is one, is the one that is wanted.
fn answer_agrees(rt: &Host<impl Abort>, answer: Option<&Answer<u32, u32>>, row: &Row) {
    if let Some(answer) = answer {
        agree(rt, answer, &row.wanted());
    }
}

/// Looks that each answer is the one that is wanted.
fn answers_agree(rt: &Host<impl Abort>, answers: &[Answer<u32, u32>], rows: &[Row]) {
    for place in 0..rows.len() {
        answer_agrees(rt, answers.get(place), &rows[place]);
    }
}

/// What commands leave that are done by single calls, but for the one that found no memory. Each answers as in the
/// run.
fn without_refused<T: Machine>(
    rt: &Host<impl Abort>,
    alloc: Global,
    begin: &Begin<Table>,
    rows: &[Row],
    answers: &[Answer<u32, u32>],
) -> Whole {
    let mut without = T::begun(rt, alloc, begin);
    for place in 0..rows.len() {
        if let Some(answer) = answers.get(place) {
            answers_alike(rt, &mut without, &rows[place], answer);
        }
    }
    let whole = read_all(rt, &without);
    drop(without);
    whole
}

/// Does a command that was told in a run too, where it answered so: it answers the same. Where it found no memory
/// there, it is left out.
fn answers_alike<T: Machine>(
    rt: &Host<impl Abort>,
    machine: &mut T,
    row: &Row,
    answer: &Answer<u32, u32>,
) {
    let shown = read(answer);
    if shown.found_no_memory() {
        agree(rt, answer, &without_memory(row.told()));
    } else {
        does(rt, machine, row.told(), &shown);
    }
}
