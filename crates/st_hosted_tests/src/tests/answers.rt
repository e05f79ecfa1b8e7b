//! What a host answers.
use super::host::{Host, got};
use st_events::{Action, PlainList};
use st_hosted::{Begin, HostAnswer, HostEntered, HostOutcome, Payload};
use std::alloc::Global;
use std::process::Abort;

/// One action. Where there is no memory for it, it is made again.
pub fn one(
    rt: &Host<impl Abort>,
    alloc: Global,
    action: Action<Payload>,
) -> PlainList<Action<Payload>> {
    let mut actions = PlainList::new(alloc);
    if let Err(failed) = actions.push(action) {
        rt.retry();
        let pushed = actions.push(failed.value);
        got(rt, "one allocation alone is refused", pushed);
    }
    actions
}

/// A start in this state, with this data, that asks for nothing.
pub fn begin(alloc: Global, state: u64, data: u64) -> Begin {
    Begin {
        state,
        data,
        actions: PlainList::new(alloc),
    }
}

/// What is answered to the event. Nothing is answered to an enter call, and the last word is 0.
pub fn answer(outcome: HostOutcome) -> HostAnswer {
    HostAnswer {
        enters: true,
        outcome,
        entered: None,
        word: 0,
    }
}

/// State and data stay, and this is asked for.
pub fn keeps(rt: &Host<impl Abort>, alloc: Global, action: Action<Payload>) -> HostAnswer {
    answer(HostOutcome::KeepStateAndData(one(rt, alloc, action)))
}

/// The machine is to be in this state, with this data.
pub fn goes(alloc: Global, state: u64, data: u64) -> HostAnswer {
    answer(HostOutcome::NextState(state, data, PlainList::new(alloc)))
}

/// The machine is to be in this state, with this data, to which the enter call gives another.
pub fn enters(alloc: Global, state: u64, data: u64, then: u64) -> HostAnswer {
    HostAnswer {
        entered: Some(HostEntered::KeepState(then, PlainList::new(alloc))),
        ..goes(alloc, state, data)
    }
}

/// The machine is to end for this reason, with this last word.
pub fn stops(reason: u32, word: u32) -> HostAnswer {
    HostAnswer {
        word,
        ..answer(HostOutcome::Stop(reason, None))
    }
}
