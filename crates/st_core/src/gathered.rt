//! What a report will tell, gathered while a start or a turn is done.
ghost use Rattle.std.specs.Prelude.{◌≡◌, [], ◌∷◌};
ghost use Rattle.st_answers.specs.declared.call.Call.TheVariants.{Handle};
ghost use Rattle.st_core.specs.Gathering.{IsEmpty, report_with};

use crate::{Call, Calls, Done, OneInline, Report};
use st_events::{Decision, Kind, PlainList, Tag, Timer};
use std::alloc::Global;

/// What a report will tell: the callbacks that were made, the tags of the replies that were taken, the numbers of the
/// events that are inserted, what is asked of timers, and the numbers of the messages that are sent.
#[derive(Drop)]
pub(crate) struct Gathered<S> {
    pub(crate) calls: Calls<S>,
    pub(crate) replied: Vec<Tag>,
    pub(crate) inserted: PlainList<u64>,
    pub(crate) set: PlainList<(Timer, Decision)>,
    pub(crate) sent: PlainList<u64>,
}

impl<S: Drop> Gathered<S> {
    /// These callbacks, and nothing else yet. It takes no memory.
    pub(crate) fn new(alloc: Global, calls: Calls<S>) -> Gathered<S>
        ensures calls { result.calls ≡ calls }
        ensures empty { IsEmpty result }
    {
        Gathered {
            calls,
            replied: Vec::new(alloc),
            inserted: PlainList::new(alloc),
            set: PlainList::new(alloc),
            sent: PlainList::new(alloc),
        }
    }

    /// The report that tells it, of an event with this number, or of a start, that ended so.
    pub(crate) fn into_report(
        self,
        event: Option<u64>,
        done: Done,
        before: S,
        after: S,
    ) -> Report<S>
        ensures { result ≡ report_with event done before after self }
    {
        let Gathered {
            calls,
            replied,
            inserted,
            set,
            sent,
        } = self;
        Report {
            event,
            done,
            calls,
            before,
            after,
            replied: PlainList::from(replied),
            inserted,
            set,
            sent,
        }
    }
}

/// The list of the call of an event's `handle`. It takes no memory.
pub(crate) fn handle_alone<S>(alloc: Global, number: u64, kind: Kind, state: S) -> Calls<S>
    ensures { result ≡ Handle number kind state ∷ [] }
{
    OneInline::of(
        alloc,
        Call::Handle {
            number,
            kind,
            state,
        },
    )
}
