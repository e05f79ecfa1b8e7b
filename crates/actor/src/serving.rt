//! A machine is served by the thread that owns it.
ghost use Rattle.std.specs.Prelude.{◌≡◌, ◌<◌, ◌≤◌, ◌^◌, Some, None, true, false, List, IfOk, IfErr, IfSome};
ghost use Rattle.st_answers.specs.declared.command.Command.{Command};
ghost use Rattle.st_answers.specs.declared.command.Command.TheVariants as command;
ghost use Rattle.st_answers.specs.declared.answer.Answer.{Answer};
ghost use Rattle.st_core.specs.Callbacks.{callbacks_of};
ghost use Rattle.st_core.specs.Choice.{has_message_of, has_event_of, next_due_of};
ghost use Rattle.st_core.specs.Run.{Runs};
ghost use Rattle.actor.specs.declared.next.Next.{Next};
ghost use Rattle.actor.specs.Receiving.{left_until, Posts, Receives};
ghost use Rattle.actor.specs.Serving.{is_due_by, IsNext, IsRunning, IsMoment, IsNothingDue, IsServed, ServesSilentlyOrNot};
ghost use Rattle.actor.specs.Ending.{IsEndOf, IsUnserved};

use crate::feed::{Feed, Inbox};
use crate::moment::{moment, passed};
use crate::next::Next;
use crate::{Event, Events, Observer, Served, Unserved};
use st_core::{Core, Module, Refusal, Turned};
use std::rt::Clock;
use std::sync::Wait;
use std::time::Instant;

/// Serves a machine until it has ended, or nobody sends any more and nothing waits. Moments are the milliseconds since the
/// start; where the clock cannot be read, the moment stays.
///
/// What is done next is, in this order: a message that the machine has sent is handed to the observer; a machine that has
/// ended is served no more; time-outs that are due expire; an event is handled, and the observer is told its report;
/// an event is taken from the channel, for which it waits until the next time-out is due. So what waits in the channel
/// is taken when the machine has nothing to handle.
///
/// Refused with `NoMemory` where memory is wanted, and with `Exhausted` where too few numbers are left: nothing changed then
/// but by what was done before, of which the observer was told, and an event that could not be posted comes back. Once
/// that is posted, the same call goes on.
///
/// Manual: the introduction, on the event queue, and time-outs; ours: docs/DECISIONS.md, Actors.
pub fn serve<M: Module, O: Observer<M>, R: Wait + Clock>(
    rt: &R,
    core: &mut Core<M>,
    events: &Events<M::Content>,
    start: &Instant,
    observer: &mut O,
) -> Result<Served, Unserved<M::Content>>
    ensures served { IsServed (callbacks_of M.Module M.State.eq) O.hears O.takes core.old observer.old core.new observer.new }
    ensures run { (commands : List (Command M.Content)) × (answers : List (Answer M.State M.Content)) × Runs (callbacks_of M.Module M.State.eq) core.old commands answers core.new }
    ensures end { IfOk result (λ served. IsEndOf served core.new.machine) }

    ensures unserved { IfErr result (λ unserved. IsUnserved (callbacks_of M.Module M.State.eq) unserved core.new) }
{
    for _ in rt.forever() {
        if let Some(served) = step(rt, core, events, start, observer)? {
            return Ok(served);
        }
    }
    unreachable!()
}

/// What is next is done.
fn step<M: Module, O: Observer<M>, R: Wait + Clock>(
    rt: &R,
    core: &mut Core<M>,
    events: &Events<M::Content>,
    start: &Instant,
    observer: &mut O,
) -> Result<Option<Served>, Unserved<M::Content>>
    ensures served { IsServed (callbacks_of M.Module M.State.eq) O.hears O.takes core.old observer.old core.new observer.new }
    ensures end { IfOk result (λ end. IfSome end (λ served. IsEndOf served core.new.machine)) }

    ensures unserved { IfErr result (λ unserved. IsUnserved (callbacks_of M.Module M.State.eq) unserved core.new) }
{
    if core.has_message() {
        hand_out(core, observer);
        return Ok(None);
    }
    if let Some((reason, word)) = core.ended() {
        return Ok(Some(Served::Ended(reason, word)));
    }
    let now = moment(passed(rt, start), core.latest());
    go_on(core, &Inbox { rt, events }, now, observer)
}

/// A message that the machine has sent is handed to the observer.
fn hand_out<M: Module, O: Observer<M>>(core: &mut Core<M>, observer: &mut O)
    requires next { has_message_of core.old.machine ≡ true }
    ensures served { IsServed (callbacks_of M.Module M.State.eq) O.hears O.takes core.old observer.old core.new observer.new }
{
    if let Some(message) = core.take_out() {
        observer.sent(message);
    }
}

/// What is next of a machine that runs is done.
fn go_on<M: Module, O: Observer<M>, F: Feed<M::Content>>(
    core: &mut Core<M>,
    feed: &F,
    now: u64,
    observer: &mut O,
) -> Result<Option<Served>, Unserved<M::Content>>
    requires running { IsRunning core.old.machine }
    requires moment { IsMoment core.old.machine now }
    ensures served { IsServed (callbacks_of M.Module M.State.eq) O.hears O.takes core.old observer.old core.new observer.new }
    ensures end { IfOk result (λ end. IfSome end (λ served. IsEndOf served core.new.machine)) }

    ensures unserved { IfErr result (λ unserved. IsUnserved (callbacks_of M.Module M.State.eq) unserved core.new) }
{
    if is_due(core.next_due(), now) {
        tick(core, now)
    } else if core.has_event() {
        turn(core, now, observer)
    } else {
        receive(core, feed, now)
    }
}

/// Says whether a time-out is due by a moment.
fn is_due(due: Option<u64>, now: u64) -> bool
    ensures { result ≡ is_due_by due now }
{
    match due {
        Some(due) => due <= now,
        None => false,
    }
}

/// Time-outs that are due expire.
fn tick<M: Module>(core: &mut Core<M>, now: u64) -> Result<Option<Served>, Unserved<M::Content>>
    requires next { IsNext core.old.machine (command.Tick now) }
    ensures served { ServesSilentlyOrNot (callbacks_of M.Module M.State.eq) core.old core.new }
    ensures end { IfOk result (λ end. end ≡ None) }

    ensures unserved { IfErr result (λ unserved. IsUnserved (callbacks_of M.Module M.State.eq) unserved core.new) }
{
    match core.tick_to(now) {
        Ok(_) => Ok(None),
        Err(refusal) => Err(unserved(refusal)),
    }
}

/// The next event is handled, and the observer is told.
fn turn<M: Module, O: Observer<M>>(
    core: &mut Core<M>,
    now: u64,
    observer: &mut O,
) -> Result<Option<Served>, Unserved<M::Content>>
    requires next { IsNext core.old.machine (command.Turn now) }
    ensures served { IsServed (callbacks_of M.Module M.State.eq) O.hears O.takes core.old observer.old core.new observer.new }
    ensures end { IfOk result (λ end. end ≡ None) }

    ensures unserved { IfErr result (λ unserved. IsUnserved (callbacks_of M.Module M.State.eq) unserved core.new) }
{
    match core.turn(now) {
        Ok(Turned::Reported(report)) => {
            observer.turned(&report, core);
            Ok(None)
        }
        Ok(Turned::Idle) => Ok(None),
        Err(refusal) => Err(unserved(refusal)),
    }
}

/// A tick or a turn was refused.
fn unserved<C>(refusal: Refusal) -> Unserved<C>
    ensures { result ≡ record { refusal = refusal; event = None } }
{
    Unserved {
        refusal,
        event: None,
    }
}

/// For how many milliseconds is waited at a moment at most, if it is known: until the next time-out is due.
fn until(due: Option<u64>, now: u64) -> Option<u64>
    ensures { result ≡ left_until due now }
{
    match due {
        Some(due) => Some(due.saturating_sub(now)),
        None => None,
    }
}

/// The next event that is sent is posted, unless a time-out is due before it comes, or nobody sends any more.
fn receive<M: Module, F: Feed<M::Content>>(
    core: &mut Core<M>,
    feed: &F,
    now: u64,
) -> Result<Option<Served>, Unserved<M::Content>>
    requires running { IsRunning core.old.machine }
    requires nothing { IsNothingDue core.old.machine now }
    requires idle { has_event_of core.old.machine ≡ false }
    ensures received { (given : Next M.Content) × F.gives feed.now (left_until (next_due_of core.old.machine) now) given × Receives (callbacks_of M.Module M.State.eq) given core.old result core.new }
    ensures served { ServesSilentlyOrNot (callbacks_of M.Module M.State.eq) core.old core.new }
    ensures end { IfOk result (λ end. IfSome end (λ served. IsEndOf served core.new.machine)) }

    ensures unserved { IfErr result (λ unserved. IsUnserved (callbacks_of M.Module M.State.eq) unserved core.new) }
{
    match feed.wait(until(core.next_due(), now)) {
        Next::Event(event) => post(core, event),
        Next::Due => Ok(None),
        Next::Left => Ok(Some(Served::Left)),
    }
}

/// An event is posted.
fn post<M: Module>(
    core: &mut Core<M>,
    event: Event<M::Content>,
) -> Result<Option<Served>, Unserved<M::Content>>
    requires next { IsNext core.old.machine (command.Post event.entry event.content) }
    ensures posts { Posts (callbacks_of M.Module M.State.eq) event core.old result core.new }
    ensures served { ServesSilentlyOrNot (callbacks_of M.Module M.State.eq) core.old core.new }
    ensures end { IfOk result (λ end. end ≡ None) }

    ensures unserved { IfErr result (λ unserved. IsUnserved (callbacks_of M.Module M.State.eq) unserved core.new) }
{
    let Event { entry, content } = event;
    match core.post(entry, content) {
        Ok(_) => Ok(None),
        Err(refused) => Err(Unserved {
            refusal: refused.refusal,
            event: Some(Event::new(entry, refused.value)),
        }),
    }
}
