//! Calls of a machine: where one finds no memory, the machine is looked at, and the call is made again.
use super::host::{Host, got, holds};
use super::machine::{Machine, read_all};
use super::row::Row;
use super::seen::{Whole, is_all};
use super::shown::{Shown, shows};
use super::told::{Told, are_commands, commands, without_memory};
use st_core::{Answer, Command, Refusal, Refused};
use std::alloc::Global;
use std::process::Abort;

/// Makes the call of one command. A refusal changes nothing that can be read.
fn try_tell<T: Machine>(rt: &Host<impl Abort>, machine: &mut T, told: Told) -> Shown {
    let before = read_all(rt, machine);
    let shown = machine.call(told);
    if shown.refusal().is_some() {
        is_all(rt, &read_all(rt, machine), &before);
    }
    shown
}

/// Does a command again that found no memory: the content came back, and the same call is made again.
fn tell_again<T: Machine>(
    rt: &Host<impl Abort>,
    machine: &mut T,
    told: Told,
    shown: &Shown,
) -> Shown {
    shows(rt, shown, &without_memory(told));
    rt.retry();
    let again = try_tell(rt, machine, told);
    holds(rt, "it has taken memory", again.takes_memory());
    again
}

/// Does one command by a call of its own. Where it finds no memory, the content comes back, and the
/// same call is made again.
pub fn tell<T: Machine>(rt: &Host<impl Abort>, machine: &mut T, told: Told) -> Shown {
    let shown = try_tell(rt, machine, told);
    if shown.found_no_memory() {
        tell_again(rt, machine, told, &shown)
    } else {
        shown
    }
}

/// Does one command, and looks at its answer.
pub fn does<T: Machine>(rt: &Host<impl Abort>, machine: &mut T, told: Told, wanted: &Shown) {
    let shown = tell(rt, machine, told);
    shows(rt, &shown, wanted);
}

/// Does the commands of rows, and looks at their answers.
pub fn play<T: Machine>(rt: &Host<impl Abort>, machine: &mut T, rows: &[Row]) {
    for row in rows {
        does(rt, machine, row.told(), &row.wanted());
    }
}

/// Makes a run again that found no memory for its answers: nothing that can be read has changed, and the commands came
/// back.
fn run_again<T: Machine>(
    rt: &Host<impl Abort>,
    machine: &mut T,
    rows: &[Row],
    before: &Whole,
    refused: Refused<Vec<Command<u32>>>,
) -> Vec<Answer<u32, u32>> {
    let Refused { refusal, value } = refused;
    let no_memory = refusal == Refusal::NoMemory;
    holds(rt, "memory was refused", no_memory);
    is_all(rt, &read_all(rt, machine), before);
    let are_back = are_commands(value.as_slice(), rows);
    holds(rt, "the commands come back", are_back);
    rt.retry();
    got(
        rt,
        "one allocation alone is refused",
        machine.call_run(value),
    )
}

/// Does commands by one run. Where there is no memory for the answers, nothing that can be read
/// has changed, the commands come back, and the same run is made again.
pub fn run<T: Machine>(
    rt: &Host<impl Abort>,
    alloc: Global,
    machine: &mut T,
    rows: &[Row],
) -> Vec<Answer<u32, u32>> {
    let before = read_all(rt, machine);
    match machine.call_run(commands(rt, alloc, rows)) {
        Ok(answers) => answers,
        Err(refused) => run_again(rt, machine, rows, &before, refused),
    }
}
