//! One turn: the next event is handled, and the machine changes. The steps stand in the manual's
//! order; what can fail is done before anything changes.
ghost use Rattle.std.specs.Prelude.{◌≡◌, ◌<◌, ◌^◌, ◌&&◌, ◌||◌, false, None, Some, Bool, Option, OnErr};
ghost use Rattle.std.specs.Option.{option_map};
ghost use Rattle.st_answers.specs.declared.answer.Answer.TheVariants as answer;
ghost use Rattle.st_answers.specs.declared.command.Command.TheVariants as command;
ghost use Rattle.st_core.specs.Callbacks.{Called, callbacks_of, entered_by};
ghost use Rattle.st_core.specs.Choice.{next_event_of};
ghost use Rattle.st_core.specs.Gathering.{ComesOf, ComesTo, EntersWhere, IsEmpty, TurnsTo};
ghost use Rattle.st_core.specs.Transition.{with_moment, unless_refused, stopped, concluded};
ghost use Rattle.st_core.specs.Run.{Does};

use crate::added::{add_entered, as_reply_actions};
use crate::answering::answer_all;
use crate::course::Course;
use crate::gathered::{Gathered, handle_alone};
use crate::new_data::{or_old, replace};
use crate::{Call, Core, Done, Turned};
use st_events::{Actions, MOMENT_LIMIT, Module, Outcome, Reason, Refusal};

/// What a module's `handle` answers.
type OutcomeOf<M> = Outcome<<M as Module>::State, <M as Module>::Data, <M as Module>::Content>;

/// Says whether there is an enter call: at a state change, and where the same state is entered again.
fn is_entered<M: Module>(module: &M, changed: bool, repeats: bool) -> bool
    ensures { result ≡ (M.enters_is «module».now && (changed || repeats)) }
{
    module.enters() && (changed || repeats)
}

impl<M: Module> Core<M> {
    /// Handles the next event at a moment, in milliseconds: calls the module back, and changes the
    /// machine as it answers. It lets no time-out expire: that is `tick`, which belongs before it.
    ///
    /// With enter calls a new state is entered, or the same one where it is repeated, by one call of
    /// `enter`; its actions follow those of `handle`, as if in one list, and it may stop. Without an event
    /// the answer is `Idle`, and nothing changes but the latest moment. A moment before the latest one
    /// counts as the latest.
    ///
    /// Refused with `Stopped` once the machine has ended, with `Moment` at 2^63 or later, with
    /// `Exhausted` where too few numbers are left for the events that are inserted and for the time-outs
    /// that are set, and with `NoMemory` where memory is wanted, which it is only where there is an event.
    /// A refusal changes nothing, the latest moment included, and a turn that was refused for memory may
    /// be tried again with the same result.
    ///
    /// Manual: `transition_option()`, the steps of a state transition; `state_enter()`.
    pub fn turn(&mut self, now: u64) -> Result<Turned<M::State>, Refusal>
        ensures does { Does (callbacks_of M.Module M.State.eq) self.old (command.Turn now) (answer.Turn result) self.new }

        ensures unchanged { OnErr result (self.new ≡ self.old) }
    {
        if let Some((reason, _)) = self.ended {
            return Err(Refusal::Stopped(reason));
        }
        if now >= MOMENT_LIMIT {
            return Err(Refusal::Moment);
        }
        let Some((number, kind, content)) = self.agenda.next() else {
            self.latest = self.latest.max(now);
            return Ok(Turned::Idle);
        };
        let before = self.state;
        // A `match`, for `?` moves the outcome once more.
        let outcome = match self
            .module
            .handle(self.alloc, kind, content, before, &self.data)
        {
            Ok(outcome) => outcome,
            Err(_) => return Err(Refusal::NoMemory),
        };
        let calls = handle_alone(self.alloc, number, kind, before);
        let mut gathered = Gathered::new(self.alloc, calls);
        let done = match self.conclude(now, number, outcome, &mut gathered) {
            Ok(done) => done,
            Err(refused) => return Err(refused),
        };
        let report = gathered.into_report(Some(number), done, before, self.state);
        Ok(Turned::Reported(report))
    }

    /// Does what `handle` answered to the next event, which has this number, at a moment.
    fn conclude(
        &mut self,
        now: u64,
        number: u64,
        outcome: OutcomeOf<M>,
        gathered: &mut Gathered<M::State>,
    ) -> Result<Done, Refusal>
        requires moment { now < 2 ^ 63 }
        requires number_is { option_map (λ event. event.number) (next_event_of self.old.machine) ≡ Some number }
        requires empty { IsEmpty gathered.old }
        ensures { (handled called : Called M.State M.Data M.Content)
            → ComesOf (callbacks_of M.Module M.State.eq self.old.module_) self.old.machine gathered.old.calls outcome handled called
            → TurnsTo number self.old self.new gathered.new result
            (unless_refused self.old.machine (concluded (callbacks_of M.Module M.State.eq self.old.module_) (with_moment self.old.machine now) number called called.reason)) }
    {
        let mut course = Course {
            now,
            number,
            after: self.state,
            changed: false,
            repeats: false,
        };
        match outcome {
            Outcome::NextState(after, data, actions) => {
                course.after = after;
                course.changed = self.state != after;
                self.proceed(course, Some(data), actions, gathered)
            }
            Outcome::KeepState(data, actions) => {
                self.proceed(course, Some(data), actions, gathered)
            }
            Outcome::KeepStateAndData(actions) => { self.proceed(course, None, actions, gathered) }
            Outcome::RepeatState(data, actions) => {
                course.repeats = true;
                self.proceed(course, Some(data), actions, gathered)
            }
            Outcome::RepeatStateAndData(actions) => {
                course.repeats = true;
                self.proceed(course, None, actions, gathered)
            }
            Outcome::Stop(reason, data) => {
                let actions = Actions::new(self.alloc);
                self.stop_by(course, data, actions, reason, gathered)
            }
            Outcome::StopAndReply(reason, replies, data) => {
                let actions = as_reply_actions(self.alloc, replies)?;
                self.stop_by(course, data, actions, reason, gathered)
            }
        }
    }

    /// The machine enters the state to which `handle` leads, where there is an enter call, and goes on.
    fn proceed(
        &mut self,
        course: Course<M::State>,
        data: Option<M::Data>,
        mut actions: Actions<M::Content>,
        gathered: &mut Gathered<M::State>,
    ) -> Result<Done, Refusal>
        requires moment { course.now < 2 ^ 63 }
        requires number_is { option_map (λ event. event.number) (next_event_of self.old.machine) ≡ Some course.number }
        requires empty { IsEmpty gathered.old }
        ensures { (handled called : Called M.State M.Data M.Content)
            → ComesTo course self.old.machine.data gathered.old.calls «data» actions handled → handled.reason ≡ None
            → EntersWhere (callbacks_of M.Module M.State.eq self.old.module_) self.old.machine.state (course.changed || course.repeats) handled called
            → TurnsTo course.number self.old self.new gathered.new result
            (unless_refused self.old.machine (concluded (callbacks_of M.Module M.State.eq self.old.module_) (with_moment self.old.machine course.now) course.number called called.reason)) }
    {
        if is_entered(&self.module, course.changed, course.repeats) {
            self.enter(course, data, &mut actions, gathered)
        } else {
            self.go_on(course, data, &mut actions, gathered)
        }
    }

    /// The machine enters the state to which `handle` leads, and goes on or stops.
    fn enter(
        &mut self,
        course: Course<M::State>,
        data: Option<M::Data>,
        actions: &mut Actions<M::Content>,
        gathered: &mut Gathered<M::State>,
    ) -> Result<Done, Refusal>
        requires moment { course.now < 2 ^ 63 }
        requires number_is { option_map (λ event. event.number) (next_event_of self.old.machine) ≡ Some course.number }
        requires empty { IsEmpty gathered.old }
        ensures { (handled called : Called M.State M.Data M.Content)
            → ComesTo course self.old.machine.data gathered.old.calls «data» actions.old handled
            → called ≡ entered_by (callbacks_of M.Module M.State.eq self.old.module_) self.old.machine.state handled
            → TurnsTo course.number self.old self.new gathered.new result
            (unless_refused self.old.machine (concluded (callbacks_of M.Module M.State.eq self.old.module_) (with_moment self.old.machine course.now) course.number called called.reason)) }
    {
        let old = self.state;
        let held = or_old(&self.data, &data);
        let entered = match self.module.enter(self.alloc, old, course.after, held) {
            Ok(entered) => entered,
            Err(_) => return Err(Refusal::NoMemory),
        };
        let (data, reason) = add_entered(actions, entered, data)?;
        let state = course.after;
        gathered.calls.push(Call::Enter { old, state })?;
        match reason {
            None => self.go_on(course, data, actions, gathered),
            Some(reason) => self.stop_at(course, data, actions, reason, gathered),
        }
    }

    /// The machine stops as `handle` says, for a reason, with the replies that it has.
    fn stop_by(
        &mut self,
        course: Course<M::State>,
        data: Option<M::Data>,
        mut actions: Actions<M::Content>,
        reason: Reason,
        gathered: &mut Gathered<M::State>,
    ) -> Result<Done, Refusal>
        requires moment { course.now < 2 ^ 63 }
        requires empty { IsEmpty gathered.old }
        ensures { (called : Called M.State M.Data M.Content)
            → ComesTo course self.old.machine.data gathered.old.calls «data» actions called
            → TurnsTo course.number self.old self.new gathered.new result
            (stopped (callbacks_of M.Module M.State.eq self.old.module_) (with_moment self.old.machine course.now) course.number called reason) }
    {
        self.stop_at(course, data, &mut actions, reason, gathered)
    }

    /// The machine stops for a reason at the next event, with what its callbacks came to.
    fn stop_at(
        &mut self,
        course: Course<M::State>,
        data: Option<M::Data>,
        actions: &mut Actions<M::Content>,
        reason: Reason,
        gathered: &mut Gathered<M::State>,
    ) -> Result<Done, Refusal>
        requires moment { course.now < 2 ^ 63 }
        requires empty { IsEmpty gathered.old }
        ensures { (called : Called M.State M.Data M.Content)
            → ComesTo course self.old.machine.data gathered.old.calls «data» actions.old called
            → TurnsTo course.number self.old self.new gathered.new result
            (stopped (callbacks_of M.Module M.State.eq self.old.module_) (with_moment self.old.machine course.now) course.number called reason) }
    {
        let state = course.after;
        let held = or_old(&self.data, &data);
        let word = self.module.terminate(reason, state, held);
        gathered.calls.push(Call::Terminate {
            reason,
            state,
            word,
        })?;
        gathered.replied.reserve_exact(actions.len())?;
        // Nothing fails from here on.
        self.latest = self.latest.max(course.now);
        self.state = state;
        replace(&mut self.data, data);
        answer_all(&mut self.requests, actions, &mut gathered.replied);
        self.end(reason, word);
        Ok(Done::Ended(reason, word))
    }
}
