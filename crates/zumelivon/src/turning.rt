//! Starts, next events and turns of hosted machines.
ghost use Rattle.std.specs.Prelude.{◌≡◌, ◌≢◌};
ghost use Rattle.zumelivon.specs.Calls.{ShowsNext, MakesTurn, ShowsOf, ShowsNext, StartsHosted, WhyNoStart, why_number};
ghost use Rattle.zumelivon.specs.Handed.{handed_in};

use crate::answers::Answers;
use crate::codes::{DONE, INVALID, NO_MEMORY, NO_SUCH_MACHINE, NOT_NEXT, NOTHING, TOO_SMALL};
use crate::flat_action::FlatAction;
use crate::flat_begin::FlatBegin;
use crate::flat_event::FlatEvent;
use crate::flat_report::FlatReport;
use crate::posting::number_of;
use crate::read_actions::{actions_of, are_actions};
use crate::showing::{event_of, is_longer, report_of, write_content};
use st_core::Core;
use st_embedded::{Lists, Machines, start_hosted, turn_hosted};
use st_events::PlainList;
use st_hosted::{Begin, HostAnswer, HostOutcome, WhyNot};
use std::alloc::Global;

/// The number of a turn that was not made.
fn why_number(why: WhyNot) -> u32
    ensures number { result ≡ why_number why }
    ensures not_closed { result ≢ 105 }
{
    match why {
        WhyNot::NotNext => NOT_NEXT,
        WhyNot::Refused(refusal) => number_of(refusal),
    }
}

pub(crate) fn start(
    alloc: Global,
    all: &mut Machines,
    now: u64,
    begin: &FlatBegin,
    answers: &Answers<'_>,
    id: &mut u64,
    report: &mut FlatReport,
) -> u32
    ensures does { StartsHosted now begin.now answers.now.actions.now answers.now.entered.now answers.now.enter_actions.now answers.now.bytes.now result id.old id.new report.old report.new all.old all.new }
    ensures why { WhyNoStart now begin.now answers.now.actions.now answers.now.entered.now answers.now.enter_actions.now answers.now.bytes.now result all.old }
    ensures not_closed { result ≢ 105 }
{
    if !are_actions(answers.actions, answers.bytes) || !answers.is_entered() {
        return INVALID;
    }
    let Ok(actions) = actions_of(alloc, answers.actions, answers.bytes) else {
        return NO_MEMORY;
    };
    let Ok(entered) = answers.entered(alloc) else {
        return NO_MEMORY;
    };
    let host = HostAnswer {
        enters: begin.enters != 0,
        outcome: HostOutcome::KeepStateAndData(PlainList::new(alloc)),
        entered,
        word: begin.word,
    };
    let begin = Begin {
        state: begin.state,
        data: begin.data,
        actions,
    };
    match start_hosted(all, &begin, host, now) {
        Ok((number, reported)) => {
            *id = number;
            *report = report_of(&reported);
            all.lists = Lists::of(reported);
            DONE
        }
        Err(refusal) => number_of(refusal),
    }
}

/// The next event of a machine.
fn show(core: &Core<HostAnswer>, event: &mut FlatEvent, room: &mut [u8]) -> u32
    ensures shows { ShowsOf result event.old event.new room.old room.new core.now }
{
    match core.next() {
        None => NOTHING,
        Some((number, kind, content)) => {
            *event = event_of(core, number, kind, content);
            if is_longer(content, room) {
                return TOO_SMALL;
            }
            write_content(content, room);
            DONE
        }
    }
}

pub(crate) fn next(all: &Machines, id: u64, event: &mut FlatEvent, room: &mut [u8]) -> u32
    ensures shows { ShowsNext id result event.old event.new room.old room.new all.now }
    ensures not_closed { result ≢ 105 }
{
    match all.hosted.get(&id) {
        Some(core) => show(core, event, room),
        None => NO_SUCH_MACHINE,
    }
}

pub(crate) fn turn(
    alloc: Global,
    all: &mut Machines,
    id: u64,
    number: u64,
    now: u64,
    answers: &Answers<'_>,
    report: &mut FlatReport,
) -> u32
    ensures does { MakesTurn id number now (handed_in answers.now) result report.old report.new all.old all.new }
    ensures not_closed { result ≢ 105 }
{
    if !answers.is_answer() {
        return INVALID;
    }
    let Ok(host) = answers.host_answer(alloc) else {
        return NO_MEMORY;
    };
    match turn_hosted(&mut all.hosted, id, number, host, now) {
        Ok(reported) => {
            *report = report_of(&reported);
            all.lists = Lists::of(reported);
            DONE
        }
        Err(why) => why_number(why),
    }
}
