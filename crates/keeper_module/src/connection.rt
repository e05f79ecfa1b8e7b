//! The module of a connection: it is lent to one client at a time.
ghost use Rattle.std.specs.Prelude.{◌≡◌, [], ◌∷◌, ◌++◌, IfOk};
ghost use Rattle.std.proofs.Common.{rules};
ghost use Rattle.keeper_module.specs.Pooling.{init_of, handle_of, enters, enter_of, terminate_of, stays, postpones, tells, lease_runs, doubled, with_longer_pause, with_check_out, connects, fails, lends, check_out_of, call_of, check_in_of, renew_of, cast_of, connected, lost, info_of, overdue, leaves, timeout_of, lasts};

use crate::{Content, History, Link, Place};
use st_events::{
    Action, Actions, EnterAction, EnterActions, EnterOutcome, Init, Kind, Module, Outcome, Reason,
    Tag, Time, Timer,
};
use std::alloc::{AllocError, Global};

/// How many milliseconds an attempt to connect may take.
const ATTEMPT_TIME: u32 = 5_000;

/// How many milliseconds nobody may want a connection, before it is closed.
const IDLE_TIME: u32 = 60_000;

/// How many milliseconds a client may keep a connection.
const LEASE_TIME: u32 = 30_000;

/// How many milliseconds it backs off after the first failure.
const FIRST_PAUSE: u32 = 1_000;

/// How many milliseconds it backs off at most.
const LONGEST_PAUSE: u32 = 30_000;

/// How many attempts may fail in a row. One more, and it gives up.
const FAILURES: u8 = 7;

/// The timer of the lease.
const LEASE: Timer = Timer::Named(1);

/// The reason for which a connection gives up.
const UNREACHABLE: Reason = 1;

/// What the connection's `handle` answers.
type Handled = Outcome<Link, History, Content>;

/// What the connection's `enter` answers.
type Entered = EnterOutcome<History, Content>;

/// A connection of a pool. A client checks it out, and in again; a check-out that comes while it is not free is postponed,
/// so it is answered once the connection is free.
///
/// The owner opens and closes sockets, as messages say. An attempt that fails is made again after a pause, each pause twice
/// as long as the one before; after eight failures in a row the machine stops, and who waits is told so. A client that keeps
/// the connection for more than 30,000 milliseconds loses it.
///
/// It has enter calls: they set the time-outs of an attempt, of a pause, and of a connection that nobody wants.
///
/// Ours: an example of a pooled resource.
#[derive(Clone, Copy)]
pub struct Connection;

/// One action.
fn one(alloc: Global, action: Action<Content>) -> Result<Actions<Content>, AllocError>
    ensures { IfOk result (λ actions. actions ≡ action ∷ []) }
{
    and(Actions::new(alloc), action)
}

/// One action more, behind the others.
fn and(
    mut actions: Actions<Content>,
    action: Action<Content>,
) -> Result<Actions<Content>, AllocError>
    ensures { IfOk result (λ more. more ≡ actions ++ action ∷ []) }
{
    actions.push(action)?;
    Ok(actions)
}

/// Both stay, and nothing is asked for.
fn stays(alloc: Global) -> Handled
    ensures { result ≡ stays }
{
    Outcome::KeepStateAndData(Actions::new(alloc))
}

/// The event waits for another state.
fn postpones(alloc: Global) -> Result<Handled, AllocError>
    ensures { IfOk result (λ outcome. outcome ≡ postpones) }
{
    Ok(Outcome::KeepStateAndData(one(alloc, Action::Postpone(true))?))
}

/// The owner is told something.
fn tells(data: &History, content: Content) -> Action<Content>
    ensures { result ≡ tells «data».now content }
{
    Action::Send(data.place.owner, content)
}

/// The lease: a client has the connection for so long.
fn lease_runs() -> Action<Content>
    ensures { result ≡ lease_runs }
{
    Action::Set(LEASE, Time::After(LEASE_TIME), Content::TimeOut)
}

/// Twice the pause, or the longest one where that is less.
fn doubled(pause: u32) -> u32
    ensures { result ≡ doubled pause }
{
    if pause < LONGEST_PAUSE / 2 {
        pause * 2
    } else {
        LONGEST_PAUSE
    }
}

/// The history with one check-out more.
fn with_check_out(data: &History) -> History
    ensures { result ≡ with_check_out «data».now }
{
    let count = if data.count < u32::MAX {
        data.count + 1
    } else {
        data.count
    };
    History { count, ..*data }
}

/// An attempt to connect begins: the owner is to open a socket.
fn connects(alloc: Global, data: History) -> Result<Handled, AllocError>
    ensures { IfOk result (λ outcome. outcome ≡ connects «data») }
{
    let actions = one(alloc, tells(&data, Content::Connect))?;
    Ok(Outcome::NextState(Link::Connecting, data, actions))
}

/// An attempt has failed: it is made again after a pause, but for the last in a row.
fn fails(alloc: Global, data: &History) -> Handled
    ensures { result ≡ fails «data».now }
{
    if data.failures < FAILURES {
        let failures = data.failures + 1;
        let data = History { failures, ..*data };
        Outcome::NextState(Link::BackingOff, data, Actions::new(alloc))
    } else {
        Outcome::Stop(UNREACHABLE, None)
    }
}

/// A client has the connection.
fn lends(alloc: Global, tag: Tag, client: u32, data: &History) -> Result<Handled, AllocError>
    ensures { IfOk result (λ outcome. outcome ≡ lends tag client «data».now) }
{
    let reply = Content::CheckedOut(data.place.number);
    let actions = and(one(alloc, Action::Reply(tag, reply))?, lease_runs())?;
    Ok(Outcome::NextState(Link::Busy(client), with_check_out(data), actions))
}

/// A client wants the connection. While it is not free, that waits; the first client brings an attempt to connect about.
fn check_out(
    alloc: Global,
    tag: Tag,
    client: u32,
    state: Link,
    data: &History,
) -> Result<Handled, AllocError>
    ensures { IfOk result (λ outcome. outcome ≡ check_out_of tag client state «data».now) }
{
    match state {
        Link::Down => {
            let waits = one(alloc, Action::Postpone(true))?;
            let actions = and(waits, tells(data, Content::Connect))?;
            Ok(Outcome::NextState(Link::Connecting, *data, actions))
        }
        Link::Free => lends(alloc, tag, client, data),
        _ => postpones(alloc),
    }
}

/// A call: a client wants the connection, or asks how often it was checked out.
fn call(
    alloc: Global,
    tag: Tag,
    content: Content,
    state: Link,
    data: &History,
) -> Result<Handled, AllocError>
    ensures { IfOk result (λ outcome. outcome ≡ call_of tag content state «data».now) }
{
    match content {
        Content::CheckOut(client) => check_out(alloc, tag, client, state, data),
        Content::Count => {
            let actions = one(alloc, Action::Reply(tag, Content::Counted(data.count)))?;
            Ok(Outcome::KeepStateAndData(actions))
        }
        _ => Ok(stays(alloc)),
    }
}

/// A client gives the connection back. Where somebody else has it, nothing changes.
fn check_in(alloc: Global, client: u32, holder: u32, data: &History) -> Result<Handled, AllocError>
    ensures { IfOk result (λ outcome. outcome ≡ check_in_of client holder «data».now) }
{
    if client == holder {
        let actions = one(alloc, Action::Cancel(LEASE))?;
        Ok(Outcome::NextState(Link::Free, *data, actions))
    } else {
        Ok(stays(alloc))
    }
}

/// A client wants the connection for longer. Where somebody else has it, nothing changes.
fn renew(alloc: Global, client: u32, holder: u32) -> Result<Handled, AllocError>
    ensures { IfOk result (λ outcome. outcome ≡ renew_of client holder) }
{
    if client == holder {
        Ok(Outcome::KeepStateAndData(one(alloc, lease_runs())?))
    } else {
        Ok(stays(alloc))
    }
}

/// A cast of a client.
fn cast(alloc: Global, content: Content, state: Link, data: &History) -> Result<Handled, AllocError>
    ensures { IfOk result (λ outcome. outcome ≡ cast_of content state «data».now) }
{
    match (content, state) {
        (Content::CheckIn(client), Link::Busy(holder)) => check_in(alloc, client, holder, data),
        (Content::Renew(client), Link::Busy(holder)) => renew(alloc, client, holder),
        _ => Ok(stays(alloc)),
    }
}

/// The attempt is done: the connection is free, and no failure is remembered.
fn connected(alloc: Global, data: &History) -> Handled
    ensures { result ≡ connected «data».now }
{
    let data = History {
        failures: 0,
        pause: FIRST_PAUSE,
        ..*data
    };
    Outcome::NextState(Link::Free, data, Actions::new(alloc))
}

/// The socket is closed while a client has it: the lease is no longer waited for, and an attempt to connect begins.
fn lost(alloc: Global, data: &History) -> Result<Handled, AllocError>
    ensures { IfOk result (λ outcome. outcome ≡ lost «data».now) }
{
    let no_lease = one(alloc, Action::Cancel(LEASE))?;
    let actions = and(no_lease, tells(data, Content::Connect))?;
    Ok(Outcome::NextState(Link::Connecting, *data, actions))
}

/// The owner's word on the socket.
fn info(alloc: Global, content: Content, state: Link, data: &History) -> Result<Handled, AllocError>
    ensures { IfOk result (λ outcome. outcome ≡ info_of content state «data».now) }
{
    match (content, state) {
        (Content::Connected, Link::Connecting) => Ok(connected(alloc, data)),
        (Content::Progress, Link::Connecting) => {
            Ok(Outcome::RepeatStateAndData(Actions::new(alloc)))
        }
        (Content::Failed, Link::Connecting) => Ok(fails(alloc, data)),
        (Content::Lost, Link::Free) => connects(alloc, *data),
        (Content::Lost, Link::Busy(_)) => lost(alloc, data),
        _ => Ok(stays(alloc)),
    }
}

/// An attempt takes too long: that counts as a failure, before all that waits, and the owner is to let it be.
fn overdue(alloc: Global, data: &History) -> Result<Handled, AllocError>
    ensures { IfOk result (λ outcome. outcome ≡ overdue «data».now) }
{
    let failed = one(alloc, Action::NextEvent(Kind::Info, Content::Failed))?;
    let actions = and(failed, tells(data, Content::Close))?;
    Ok(Outcome::KeepStateAndData(actions))
}

/// A pause is over: the next attempt begins, and the next pause is longer.
fn paused(alloc: Global, data: &History) -> Result<Handled, AllocError>
    ensures { IfOk result (λ outcome. outcome ≡ connects (with_longer_pause «data».now)) }
{
    let pause = doubled(data.pause);
    connects(alloc, History { pause, ..*data })
}

/// The connection leaves its state, and the owner is told why.
fn leaves(
    alloc: Global,
    state: Link,
    content: Content,
    data: &History,
) -> Result<Handled, AllocError>
    ensures { IfOk result (λ outcome. outcome ≡ leaves state content «data».now) }
{
    let actions = one(alloc, tells(data, content))?;
    Ok(Outcome::NextState(state, *data, actions))
}

/// A time-out: that of an attempt, of a pause, of a connection that nobody wants, or of a lease.
fn time_out(alloc: Global, timer: Timer, state: Link, data: &History) -> Result<Handled, AllocError>
    ensures { IfOk result (λ outcome. outcome ≡ timeout_of timer state «data».now) }
{
    match (timer, state) {
        (Timer::State, Link::Connecting) => overdue(alloc, data),
        (Timer::State, Link::BackingOff) => paused(alloc, data),
        (Timer::State, Link::Free) => leaves(alloc, Link::Down, Content::Close, data),
        (Timer::Named(_), Link::Busy(holder)) => {
            leaves(alloc, Link::Free, Content::Reclaimed(holder), data)
        }
        _ => Ok(stays(alloc)),
    }
}

/// The state lasts so many milliseconds at most.
fn lasts(alloc: Global, time: u32) -> Result<Entered, AllocError>
    ensures { IfOk result (λ outcome. outcome ≡ lasts time) }
{
    let mut actions = EnterActions::new(alloc);
    let time = Time::After(time);
    actions.push(EnterAction::Set(Timer::State, time, Content::TimeOut))?;
    Ok(EnterOutcome::KeepStateAndData(actions))
}

impl Module for Connection {
    type State = Link;

    type Data = History;

    type Content = Content;

    type Arg = Place;

    ghost init_is = { λ connection place. init_of place };

    ghost handle_is = { λ connection kind content state held. handle_of kind content state held };

    ghost enters_is = { λ connection. enters };

    ghost enter_is = { λ connection old state held. enter_of old state held };

    ghost terminate_is = { λ connection reason state held. terminate_of reason state held };

    fn init(
        &self,
        alloc: Global,
        place: &Place,
    ) -> Result<Init<Link, History, Content>, AllocError> {
        let data = History {
            place: *place,
            failures: 0,
            pause: FIRST_PAUSE,
            count: 0,
        };
        Ok(Init::Ok(Link::Down, data, Actions::new(alloc)))
    }

    fn handle(
        &self,
        alloc: Global,
        kind: Kind,
        content: &Content,
        state: Link,
        data: &History,
    ) -> Result<Handled, AllocError> {
        match kind {
            Kind::Call(tag) => call(alloc, tag, *content, state, data),
            Kind::Cast => cast(alloc, *content, state, data),
            Kind::Info => info(alloc, *content, state, data),
            Kind::Timeout(timer) => time_out(alloc, timer, state, data),
            Kind::Internal => Ok(stays(alloc)),
        }
    }

    fn enters(&self) -> bool {
        true
    }

    fn enter(
        &self,
        alloc: Global,
        _old: Link,
        state: Link,
        data: &History,
    ) -> Result<Entered, AllocError> {
        match state {
            Link::Connecting => lasts(alloc, ATTEMPT_TIME),
            Link::Free => lasts(alloc, IDLE_TIME),
            Link::BackingOff => lasts(alloc, data.pause),
            _ => Ok(EnterOutcome::KeepStateAndData(EnterActions::new(alloc))),
        }
    }

    fn terminate(&self, _reason: Reason, _state: Link, data: &History) -> u32 {
        data.count
    }

    fn copy_content(&self, _alloc: Global, content: &Content) -> Result<Content, AllocError> {
        Ok(*content)
    }

    fn copy_data(&self, _alloc: Global, data: &History) -> Result<History, AllocError> {
        Ok(*data)
    }

    ghost lawful = { Prim.search rules };
}
