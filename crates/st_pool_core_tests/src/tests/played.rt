//! Steps that are done as one list.
use super::host::{Host, got, holds};
use super::opened::{add, is_made_again, with_reserved};
use super::pooled::Pooled;
use super::shown::agrees;
use super::shows::shows;
use super::told::{Wanted, comes_back, copy_of, found_no_memory, tell};
use super::whole::{Whole, read_all};
use st_core::Refused;
use st_pool_core::{Step, StepAnswer};
use std::alloc::Global;
use std::process::Abort;

/// The steps themselves. Where memory was refused, it is asked for again.
fn steps_of(rt: &Host<impl Abort>, alloc: Global, wanted: &[Wanted]) -> Vec<Step<u32>> {
    let mut steps = with_reserved(rt, alloc, wanted.len());
    for Wanted(step, _, _, _) in wanted {
        add(rt, &mut steps, copy_of(step));
    }
    steps
}

/// What is wanted of a row.
fn wanted_at<'a>(rt: &impl Abort, wanted: &'a [Wanted], row: usize) -> &'a Wanted {
    wanted.get(row).expect(rt, "there is such a row")
}

/// Looks that these are the steps.
fn are_steps(rt: &impl Abort, steps: &[Step<u32>], wanted: &[Wanted]) {
    holds(rt, "how many steps", steps.len() == wanted.len());
    for (row, step) in steps.iter().enumerate() {
        let Wanted(own, _, _, _) = wanted_at(rt, wanted, row);
        shows(rt, row, "the step comes back", *step == *own);
    }
}

/// Looks that there was no memory for the answers, nothing that can be read has changed, and the steps came back.
fn are_refused<T: Pooled>(
    rt: &Host<impl Abort>,
    pool: &T,
    before: &Whole,
    refused: &Refused<Vec<Step<u32>>>,
    wanted: &[Wanted],
) {
    is_made_again(rt, refused.refusal);
    let after = read_all(rt, pool);
    holds(rt, "a refusal changes nothing", after == *before);
    drop(after);
    are_steps(rt, refused.value.as_slice(), wanted);
}

/// Does steps as one list. Where there is no memory for the answers, nothing that can be read has changed, the steps
/// come back, and the same list is played again.
fn play<T: Pooled>(
    rt: &Host<impl Abort>,
    alloc: Global,
    pool: &mut T,
    wanted: &[Wanted],
) -> Vec<StepAnswer<u32, u32>> {
    let before = read_all(rt, pool);
    match pool.do_all(steps_of(rt, alloc, wanted)) {
        Ok(answers) => {
            drop(before);
            answers
        }
        Err(refused) => {
            are_refused(rt, pool, &before, &refused, wanted);
            drop(before);
            let again = pool.do_all(refused.value);
            got(rt, "one allocation alone is refused", again)
        }
    }
}

/// Does a step by itself, and looks that it answers the same.
fn answers_alone<T: Pooled>(
    rt: &Host<impl Abort>,
    row: usize,
    without: &mut T,
    step: &Step<u32>,
    answer: &StepAnswer<u32, u32>,
) {
    let alone = tell(rt, row, without, step);
    shows(rt, row, "it answers the same alone", alone == *answer);
    drop(alone);
}

/// Does the steps of a list but one that found no memory, each by itself, and looks that they answer the same.
fn does_without<T: Pooled>(
    rt: &Host<impl Abort>,
    without: &mut T,
    wanted: &[Wanted],
    answers: &[StepAnswer<u32, u32>],
) {
    for (row, answer) in answers.iter().enumerate() {
        let Wanted(step, _, _, _) = wanted_at(rt, wanted, row);
        if found_no_memory(answer) {
            comes_back(rt, row, step, answer);
        } else {
            answers_alone(rt, row, without, step, answer);
        }
    }
}

/// Does steps as one list, each of which is answered.
fn play_all<T: Pooled>(
    rt: &Host<impl Abort>,
    alloc: Global,
    pool: &mut T,
    wanted: &[Wanted],
) -> Vec<StepAnswer<u32, u32>> {
    let answers = play(rt, alloc, pool, wanted);
    holds(rt, "how many answers", answers.len() == wanted.len());
    answers
}

/// Looks that the answers are those that are wanted.
fn agree(rt: &impl Abort, answers: &[StepAnswer<u32, u32>], wanted: &[Wanted]) {
    for (row, answer) in answers.iter().enumerate() {
        let Wanted(_, own, _, _) = wanted_at(rt, wanted, row);
        agrees(rt, row, answer, own);
    }
}

/// Looks that all that can be read of two pools is the same.
fn are_alike<T: Pooled>(rt: &Host<impl Abort>, pool: &T, without: &T) {
    let one = read_all(rt, pool);
    let other = read_all(rt, without);
    holds(rt, "all is as by the others alone", one == other);
    drop(one);
    drop(other);
}

/// Does steps as one list, and looks at their answers.
fn plays_again<T: Pooled>(rt: &Host<impl Abort>, alloc: Global, pool: &mut T, wanted: &[Wanted]) {
    let answers = play_all(rt, alloc, pool, wanted);
    agree(rt, answers.as_slice(), wanted);
    drop(answers);
}

/// Does steps as one list, and looks at their answers. Where one of them found no memory, all is as by the others
/// alone, each by itself in another pool, and the list is played in a third; so all three begin alike.
pub fn plays<T: Pooled>(rt: &Host<impl Abort>, alloc: Global, pools: (T, T, T), wanted: &[Wanted]) {
    let (mut pool, mut without, mut again) = pools;
    let answers = play_all(rt, alloc, &mut pool, wanted);
    if answers.as_slice().iter().any(found_no_memory) {
        does_without(rt, &mut without, wanted, answers.as_slice());
        are_alike(rt, &pool, &without);
        rt.retry();
        plays_again(rt, alloc, &mut again, wanted);
    } else {
        agree(rt, answers.as_slice(), wanted);
    }
    drop(answers);
    drop(pool);
    drop(without);
    drop(again);
}
