//! Runs that are put together from steps, from calls and from other runs.
use super::host::{Host, got, holds, is_count, is_number};
use super::machine::Machine;
use super::reserved::with_reserved;
use super::shown::Shown::{Gone, Idle, Stopped, Ticked};
use super::shown::{Shown, agree};
use super::table::Table;
use super::table_machine::PLAIN;
use super::told::FIRST;
use crate::{AnswerOf, AnswersOf, step_alone, turn_and_collect, two_runs, two_steps};
use st_core::{Answer, Command, Core, Refusal, Refused, Tag};
use std::alloc::Global;
use std::process::Abort;

/// A machine of which runs are put together.
trait Joined: Machine {
    fn two_steps(
        &mut self,
        first: Command<u32>,
        second: Command<u32>,
    ) -> (AnswerOf<Table>, AnswerOf<Table>);

    fn turn_and_collect(&mut self, now: u64, tag: Tag) -> (AnswerOf<Table>, AnswerOf<Table>);

    fn two_runs(
        &mut self,
        first: Vec<Command<u32>>,
        second: Vec<Command<u32>>,
    ) -> Result<(AnswersOf<Table>, AnswersOf<Table>), Refused<Vec<Command<u32>>>>;

    fn step_alone(&mut self, command: Command<u32>) -> AnswerOf<Table>;
}

impl Joined for Core<Table> {
    fn two_steps(
        &mut self,
        first: Command<u32>,
        second: Command<u32>,
    ) -> (AnswerOf<Table>, AnswerOf<Table>) {
        two_steps(self, first, second)
    }

    fn turn_and_collect(&mut self, now: u64, tag: Tag) -> (AnswerOf<Table>, AnswerOf<Table>) {
        let (turned, collected) = turn_and_collect(self, now, tag);
        (Answer::Turn(turned), Answer::Collect(collected))
    }

    fn two_runs(
        &mut self,
        first: Vec<Command<u32>>,
        second: Vec<Command<u32>>,
    ) -> Result<(AnswersOf<Table>, AnswersOf<Table>), Refused<Vec<Command<u32>>>> {
        two_runs(self, first, second)
    }

    fn step_alone(&mut self, command: Command<u32>) -> AnswerOf<Table> {
        step_alone(self, command)
    }
}

/// A tick at each moment.
fn ticks(rt: &Host<impl Abort>, alloc: Global, moments: &[u64]) -> Vec<Command<u32>> {
    let mut commands = with_reserved(rt, alloc, moments.len());
    for moment in moments {
        let pushed = commands.push(Command::Tick(*moment));
        holds(rt, "there is a place for each tick", pushed.is_ok());
    }
    commands
}

/// Makes two runs.
fn try_twice<T: Joined>(
    rt: &Host<impl Abort>,
    alloc: Global,
    machine: &mut T,
) -> Result<(AnswersOf<Table>, AnswersOf<Table>), Refusal> {
    let first = ticks(rt, alloc, &[6]);
    match machine.two_runs(first, ticks(rt, alloc, &[7, 8])) {
        Ok(answers) => Ok(answers),
        Err(refused) => Err(refused.refusal),
    }
}

/// Makes two runs. Where there is no place for the answers, they are made again.
fn run_twice<T: Joined>(
    rt: &Host<impl Abort>,
    alloc: Global,
    machine: &mut T,
) -> (AnswersOf<Table>, AnswersOf<Table>) {
    match try_twice(rt, alloc, machine) {
        Ok(answers) => answers,
        Err(refusal) => {
            holds(rt, "memory was refused", refusal == Refusal::NoMemory);
            rt.retry();
            got(
                rt,
                "one allocation alone is refused",
                try_twice(rt, alloc, machine),
            )
        }
    }
}

/// Looks that two answers are those that are wanted.
fn both_agree(
    rt: &Host<impl Abort>,
    answers: (AnswerOf<Table>, AnswerOf<Table>),
    first: &Shown,
    second: &Shown,
) {
    agree(rt, &answers.0, first);
    agree(rt, &answers.1, second);
    drop(answers);
}

/// Looks at the answers of two steps.
fn steps_answer<T: Joined>(rt: &Host<impl Abort>, machine: &mut T) {
    let answers = machine.two_steps(Command::Tick(3), Command::Tick(4));
    both_agree(rt, answers, &Ticked(0), &Ticked(0));
}

/// Looks at the answers of a turn and a collect.
fn calls_answer<T: Joined>(rt: &Host<impl Abort>, machine: &mut T) {
    let answers = machine.turn_and_collect(5, FIRST);
    both_agree(rt, answers, &Idle, &Gone);
}

/// Looks how many answers two runs have.
fn are_counted(rt: &Host<impl Abort>, answers: (AnswersOf<Table>, AnswersOf<Table>)) {
    is_count(rt, "the first run has one answer", answers.0.len(), 1);
    is_count(rt, "the second run has two answers", answers.1.len(), 2);
    drop(answers);
}

/// Looks at the answers of two runs.
fn runs_answer<T: Joined>(rt: &Host<impl Abort>, alloc: Global, machine: &mut T) {
    are_counted(rt, run_twice(rt, alloc, machine));
    is_number(
        rt,
        "the latest moment is the last tick's",
        machine.see().latest,
        8,
    );
}

/// Looks at the answer of a machine to a stop.
fn stop_answers<T: Joined>(rt: &Host<impl Abort>, machine: &mut T) {
    let answer = machine.step_alone(Command::Stop(9));
    agree(rt, &answer, &Stopped(7));
    drop(answer);
}

/// Looks at the answers of a machine to steps, calls and runs that are put together.
fn all_answer<T: Joined>(rt: &Host<impl Abort>, alloc: Global) {
    let mut machine = T::begun(rt, alloc, &PLAIN);
    steps_answer(rt, &mut machine);
    calls_answer(rt, &mut machine);
    runs_answer(rt, alloc, &mut machine);
    stop_answers(rt, &mut machine);
    drop(machine);
}

/// The steps take no memory, so that none is refused.
#[test]
fn runs_are_put_together(rt: HostRuntime) {
    let rt = Host::new(rt);
    all_answer::<Core<Table>>(&rt, rt.alloc());
    rt.end();
}
