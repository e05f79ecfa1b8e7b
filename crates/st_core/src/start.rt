//! A machine starts.
ghost use Rattle.std.specs.Prelude.{◌≡◌, ◌≤◌, ◌<◌, ◌^◌, []};
ghost use Rattle.st_core.specs.Callbacks.{Called, callbacks_of, begun_with, entered_by};
ghost use Rattle.st_core.specs.Gathering.{IsEmpty};
ghost use Rattle.st_core.specs.Start.{BegunBy, Starts, start_of, begun_as, started_by, started_with, ended_with, first_state};

use crate::added::add_entered;
use crate::gathered::Gathered;
use crate::new_data::replace;
use crate::opening::Opening;
use crate::prepared::prepare;
use crate::sending::send_each;
use crate::{Call, Core, Done, OneInline, Report};
use st_agenda::Agenda;
use st_events::{Actions, Init, MOMENT_LIMIT, MachineId, Module, Reason, Refusal, Refused};
use st_outbox::Outgoing;
use st_requests::Requests;
use std::alloc::Global;

/// What a module's `init` answers.
type InitOf<M> = Init<<M as Module>::State, <M as Module>::Data, <M as Module>::Content>;

/// What comes of a start.
///
/// Manual: `start_ret()`, `init_result()`.
#[derive(Drop)]
pub enum Start<M: Module> {
    /// A machine, and what its start did. It has ended where the first enter call stopped: `Core::ended`
    /// says so.
    Running(Core<M>, Report<M::State>),
    /// No machine: `init` answered that this start is to be ignored. The module is let go.
    Ignored,
    /// No machine: `init` stopped for this reason. The module is let go.
    Stopped(Reason),
}

impl<M: Module> Core<M> {
    /// Starts a machine at a moment, in milliseconds: calls the module's `init` on the argument. The
    /// first event gets the number 1. The id is the caller's choice, and no other machine's: the tags of
    /// requests name it.
    ///
    /// With enter calls the first state is entered, with itself as the old one. What the actions of `init`
    /// and then of `enter` ask for is done: events are inserted, then timers are set, and then messages are
    /// sent. There is no event that could be postponed, so a Postpone is ignored. Where the enter call stops, there
    /// is a machine, which has ended.
    ///
    /// Refused with `Moment` at 2^63 or later, before `init` is called, with `Exhausted` where too few
    /// numbers are left for these events and time-outs, and with `NoMemory` where memory is wanted. A
    /// refusal gives the module back.
    ///
    /// Manual: `start/3`, `Module:init/1`, `state_enter()`.
    pub fn start(
        alloc: Global,
        module: M,
        id: MachineId,
        arg: &M::Arg,
        now: u64,
    ) -> Result<Start<M>, Refused<M>>
        ensures start { Starts «module» result (start_of (callbacks_of M.Module M.State.eq «module») «module» id (M.init_is «module» arg.now) now 1) }
    {
        Core::start_from(alloc, module, id, arg, now, 1)
    }

    /// Starts a machine as `start` does, whose first event gets the number `first`.
    ///
    /// Ours: docs/DECISIONS.md, Numbers of events.
    pub fn start_from(
        alloc: Global,
        module: M,
        id: MachineId,
        arg: &M::Arg,
        now: u64,
        first: u64,
    ) -> Result<Start<M>, Refused<M>>
        requires least { 1 ≤ first }
        requires greatest { first < 2 ^ 63 }
        ensures start { Starts «module» result (start_of (callbacks_of M.Module M.State.eq «module») «module» id (M.init_is «module» arg.now) now first) }
    {
        if now >= MOMENT_LIMIT {
            return Err(Refused::new(Refusal::Moment, module));
        }
        let init = match module.init(alloc, arg) {
            Ok(init) => init,
            Err(_) => return Err(Refused::new(Refusal::NoMemory, module)),
        };
        let opening = Opening {
            alloc,
            module,
            id,
            now,
            first,
        };
        Core::open(opening, init)
    }

    /// Does what `init` answered.
    fn open(opening: Opening<M>, init: InitOf<M>) -> Result<Start<M>, Refused<M>>
        requires moment { opening.now < 2 ^ 63 }
        requires greatest { opening.first < 2 ^ 63 }
        ensures start { Starts opening.module result (started_by (callbacks_of M.Module M.State.eq opening.module) opening.module opening.id init opening.now opening.first) }
    {
        match init {
            Init::Ignore => Ok(Start::Ignored),
            Init::Stop(reason) => Ok(Start::Stopped(reason)),
            Init::Ok(state, data, actions) => Core::begin(opening, state, data, actions),
        }
    }

    /// Begins in a state with data, which is entered where there is an enter call, and does what `init` and the enter
    /// call asked for.
    fn begin(
        opening: Opening<M>,
        state: M::State,
        data: M::Data,
        mut actions: Actions<M::Content>,
    ) -> Result<Start<M>, Refused<M>>
        requires moment { opening.now < 2 ^ 63 }
        requires greatest { opening.first < 2 ^ 63 }
        ensures start { (called : Called M.State M.Data M.Content)
            → BegunBy (callbacks_of M.Module M.State.eq opening.module) state «data» actions called
            → Starts opening.module result (begun_as (callbacks_of M.Module M.State.eq opening.module) opening.module opening.id called opening.now opening.first) }
    {
        let gathered = Gathered::new(opening.alloc, OneInline::new(opening.alloc));
        if opening.module.enters() {
            Core::begin_entered(opening, state, data, &mut actions, gathered)
        } else {
            Core::run_from(opening, state, data, &mut actions, gathered)
        }
    }

    /// Begins in a state with data, which is entered, and does what `init` and the enter call asked for.
    fn begin_entered(
        opening: Opening<M>,
        state: M::State,
        mut data: M::Data,
        actions: &mut Actions<M::Content>,
        mut gathered: Gathered<M::State>,
    ) -> Result<Start<M>, Refused<M>>
        requires moment { opening.now < 2 ^ 63 }
        requires greatest { opening.first < 2 ^ 63 }
        requires no_calls { gathered.calls ≡ [] }
        requires empty { IsEmpty gathered }
        ensures start { (called : Called M.State M.Data M.Content)
            → called ≡ entered_by (callbacks_of M.Module M.State.eq opening.module) state (begun_with state «data» actions.old)
            → Starts opening.module result (begun_as (callbacks_of M.Module M.State.eq opening.module) opening.module opening.id called opening.now opening.first) }
    {
        let Ok(entered) = opening.module.enter(opening.alloc, state, state, &data) else {
            return Err(Refused::new(Refusal::NoMemory, opening.module));
        };
        let Ok((new, reason)) = add_entered(actions, entered, None) else {
            return Err(Refused::new(Refusal::NoMemory, opening.module));
        };
        let Ok(()) = gathered.calls.push(Call::Enter { old: state, state }) else {
            return Err(Refused::new(Refusal::NoMemory, opening.module));
        };
        replace(&mut data, new);
        match reason {
            None => Core::run_from(opening, state, data, actions, gathered),
            Some(reason) => Core::end_at(opening, state, data, reason, gathered),
        }
    }

    /// A machine runs in a state with data, and does what the actions ask for. A Postpone is ignored.
    fn run_from(
        opening: Opening<M>,
        state: M::State,
        data: M::Data,
        actions: &mut Actions<M::Content>,
        gathered: Gathered<M::State>,
    ) -> Result<Start<M>, Refused<M>>
        requires moment { opening.now < 2 ^ 63 }
        requires greatest { opening.first < 2 ^ 63 }
        requires empty { IsEmpty gathered }
        ensures start { (called : Called M.State M.Data M.Content) → called.calls ≡ gathered.calls → called.actions ≡ actions.old
            → Starts opening.module result (started_with opening.module (first_state opening.id state «data» opening.now opening.first) called) }
    {
        if actions.is_empty() {
            Core::run_idle(opening, state, data, gathered)
        } else {
            Core::run_with(opening, state, data, actions, gathered)
        }
    }

    /// The same, where nothing is asked for.
    fn run_idle(
        opening: Opening<M>,
        state: M::State,
        data: M::Data,
        gathered: Gathered<M::State>,
    ) -> Result<Start<M>, Refused<M>>
        requires moment { opening.now < 2 ^ 63 }
        requires greatest { opening.first < 2 ^ 63 }
        requires empty { IsEmpty gathered }
        ensures start { (called : Called M.State M.Data M.Content) → called.calls ≡ gathered.calls → called.actions ≡ []
            → Starts opening.module result (started_with opening.module (first_state opening.id state «data» opening.now opening.first) called) }
    {
        let core = Core {
            alloc: opening.alloc,
            module: opening.module,
            id: opening.id,
            state,
            data,
            agenda: Agenda::new(opening.alloc, opening.first),
            requests: Requests::new(opening.alloc),
            outgoing: Outgoing::new(opening.alloc),
            latest: opening.now,
            ended: None,
        };
        let report = gathered.into_report(None, Done::Started, state, state);
        Ok(Start::Running(core, report))
    }

    /// The same, where something may be asked for.
    fn run_with(
        opening: Opening<M>,
        state: M::State,
        data: M::Data,
        actions: &mut Actions<M::Content>,
        mut gathered: Gathered<M::State>,
    ) -> Result<Start<M>, Refused<M>>
        requires moment { opening.now < 2 ^ 63 }
        requires greatest { opening.first < 2 ^ 63 }
        requires empty { IsEmpty gathered }
        ensures start { (called : Called M.State M.Data M.Content) → called.calls ≡ gathered.calls → called.actions ≡ actions.old
            → Starts opening.module result (started_with opening.module (first_state opening.id state «data» opening.now opening.first) called) }
    {
        let mut agenda = Agenda::new(opening.alloc, opening.first);
        let mut outgoing = Outgoing::new(opening.alloc);
        let counts = match prepare(
            opening.alloc,
            &mut agenda,
            &mut outgoing,
            false,
            actions,
            &mut gathered,
        ) {
            Ok(counts) => counts,
            Err(refusal) => return Err(Refused::new(refusal, opening.module)),
        };
        // Nothing fails from here on.
        agenda.insert(counts.inserts, actions);
        agenda.set_all(opening.now, counts.settings, actions);
        send_each(&mut outgoing, opening.id, counts.sends, actions);
        let core = Core {
            alloc: opening.alloc,
            module: opening.module,
            id: opening.id,
            state,
            data,
            agenda,
            requests: Requests::new(opening.alloc),
            outgoing,
            latest: opening.now,
            ended: None,
        };
        let report = gathered.into_report(None, Done::Started, state, state);
        Ok(Start::Running(core, report))
    }

    /// The first enter call stops for a reason, in a state with data: there is a machine, which has ended.
    fn end_at(
        opening: Opening<M>,
        state: M::State,
        data: M::Data,
        reason: Reason,
        mut gathered: Gathered<M::State>,
    ) -> Result<Start<M>, Refused<M>>
        requires moment { opening.now < 2 ^ 63 }
        requires greatest { opening.first < 2 ^ 63 }
        requires empty { IsEmpty gathered }
        ensures start { (called : Called M.State M.Data M.Content) → called.calls ≡ gathered.calls
            → Starts opening.module result (ended_with (callbacks_of M.Module M.State.eq opening.module) opening.module (first_state opening.id state «data» opening.now opening.first) called reason) }
    {
        let word = opening.module.terminate(reason, state, &data);
        let Ok(()) = gathered.calls.push(Call::Terminate {
            reason,
            state,
            word,
        })
        else {
            return Err(Refused::new(Refusal::NoMemory, opening.module));
        };
        let core = Core {
            alloc: opening.alloc,
            module: opening.module,
            id: opening.id,
            state,
            data,
            agenda: Agenda::new(opening.alloc, opening.first),
            requests: Requests::new(opening.alloc),
            outgoing: Outgoing::new(opening.alloc),
            latest: opening.now,
            ended: Some((reason, word)),
        };
        let report = gathered.into_report(None, Done::Ended(reason, word), state, state);
        Ok(Start::Running(core, report))
    }
}
