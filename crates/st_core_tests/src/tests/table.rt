//! The module by a table: each content has its outcome, each argument its start.
ghost use Rattle.std.specs.Prelude.{◌≡◌, true, [], ◌∷◌, ◌++◌, IfOk, refl};
ghost use Rattle.std.proofs.Common.{rules};
ghost use Rattle.st_events.specs.declared.action.Action.TheVariants as action;
ghost use Rattle.st_events.specs.declared.enter_action.EnterAction.TheVariants as enter_action;
ghost use Rattle.st_events.specs.declared.time.Time.TheVariants as time;
ghost use Rattle.st_events.specs.declared.timer.Timer.TheVariants as timer;
ghost use Rattle.st_core_tests.specs.WorkedTable.{first_tag, second_tag, five_actions, actions_of_each_kind, five_replies, two_inserts, three_settings, handled_at_length, handled_by_updating, six_requests, handled_by_sending, two_sends, send_set_insert, five_sends, handled_by_replying, handled_by_entering, handled_by_setting, handled_anywhere, handled_at_first, handled_by_table, enters_by_table, entering_actions, five_enter_actions, enter_actions_of_each_kind, changed_by_table, entered_by_table, begun_by_table};

use st_core::{
    Action, Actions, EnterAction, EnterActions, EnterOutcome, Init, Kind, MachineId, Module,
    Outcome, Reason, Replies, SmallList, Tag, Time, Timer,
};
use std::alloc::{AllocError, Global};

/// The request to which the table replies.
const TAG: Tag = Tag {
    machine: MachineId { slot: 0, serial: 1 },
    request: 1,
};

/// Another request to the same machine.
const SECOND: Tag = Tag {
    machine: MachineId { slot: 0, serial: 1 },
    request: 2,
};

/// A third request to the same machine.
const THIRD: Tag = Tag {
    machine: MachineId { slot: 0, serial: 1 },
    request: 3,
};

/// A request to another machine.
const FOREIGN: Tag = Tag {
    machine: MachineId { slot: 0, serial: 2 },
    request: 1,
};

/// Another machine.
const OTHER_MACHINE: MachineId = MachineId { slot: 1, serial: 2 };

/// A third machine.
const THIRD_MACHINE: MachineId = MachineId { slot: 2, serial: 3 };

/// States, data and contents are numbers. The first state is 0, the first data 7, and `terminate`
/// answers the data.
///
/// | Content | Outcome in the state 0 |
/// |---|---|
/// | 10 | keeps both, and is postponed |
/// | 11 | leads to the state 1, is postponed, and inserts 20 as internal and 21 as a cast |
/// | 12 | keeps both, is postponed, and inserts 20 as internal and 21 as a cast |
/// | 13 | keeps both, with `Postpone(false)` and then `Postpone(true)` |
/// | 14 | keeps both, with `Postpone(true)` and then `Postpone(false)` |
///
/// | Content | Outcome in each state, but 10 to 14 as above |
/// |---|---|
/// | 3 | leads to the state 1 |
/// | 4 | keeps the state, with the data 9 |
/// | 5 | keeps both, with a reply of 50 and a hibernation |
/// | 6 | keeps both, with five hibernations |
/// | 7 | keeps both, and inserts 20 as internal and 21 as a cast |
/// | 8 | keeps both, and inserts 7 as internal and 21 as a cast |
/// | 9 | leads to the state 0 |
/// | 15 | stops for the reason 9 |
/// | 16 | stops for the reason 9, with the data 8 |
/// | 17 | stops for the reason 9, with a reply of 40 and the data 8 |
/// | 22 | keeps both, and sets the state time-out and then the event time-out, each for 0 |
/// | 23 | keeps both, and sets the event time-out and then the state time-out, each for 0 |
/// | 24 | keeps both, and stops the named timer 5 |
/// | 25 | keeps both, sets the named timer 1 for 0, and inserts 26 as internal |
/// | 26 | keeps both, and sets the named timer 1 for 5 |
/// | 27 | leads to the state 1, and sets the state time-out for 10 |
/// | 28 | keeps both, and sets the state time-out for 5 |
/// | 29 | keeps both, and sets the event time-out for 5 |
/// | 30 | keeps both, and sets the named timer 2 for 0, with the content 10 |
/// | 31 | keeps both, and sets the named timer 1 for 5 and then for 7 |
/// | 32 | repeats both |
/// | 33 | repeats the state, with the data 9 |
/// | 34 | leads to the state 2, with the data 9 |
/// | 35 | leads to the state 1, is postponed, and sets the named timer 1 for 5, the state time-out for 10 and the named timer 2 for 5 |
/// | 36 | repeats both, and is postponed |
/// | 37 | stops for the reason 9, with replies of 40 to the first request and of 51 to the second |
/// | 38 | leads to the state 1, with a reply of 52 to the second request |
/// | 39 | keeps both, with replies of 50 and then of 51 to the first request |
/// | 40 | keeps both, with a reply of 53 to another machine's request |
/// | 41 | leads to the state 1, with the nine actions below |
/// | 42 | stops for the reason 9, with the five replies below |
/// | 43 | keeps both, and updates the named timer 5 to the content 4 |
/// | 44 | keeps both, sets the named timer 5 for 20, and then updates it to 4 |
/// | 45 | keeps both, updates the named timer 5 to 4, and then sets it for 20 |
/// | 46 | keeps both, and cancels the named timer 5 |
/// | 47 | keeps both, and sets the named timer 5 for 10 |
/// | 48 | keeps both, and updates the event time-out to 4 |
/// | 49 | keeps both, and updates the state time-out to 4 |
/// | 50 | leads to the state 1, and updates the state time-out to 4 |
/// | 51 | keeps both, with the six requests to timers below |
/// | 52 | keeps both, and sends 5 to another machine and 6 to a third, with `Postpone(false)` between |
/// | 53 | leads to the state 1, sends 7 to another machine, sets the named timer 5 for 5, and inserts 20 as internal |
/// | 54 | keeps both, with the five messages below |
/// | 55 | keeps both, and sends 8 to another machine |
/// | other | keeps both |
///
/// The contents of time-outs are 0, where no other is told.
///
/// The nine actions: the named timer 1 is set for 5, a reply of 54 to the second request, 20 is inserted as internal,
/// `Postpone(true)`, a hibernation, the state time-out is set for 10, 21 is inserted as a cast, the named timer 1 is set
/// for 7, and a reply of 55 to the first request.
///
/// The six requests: the named timer 1 is updated to 4, the named timer 5 is set for 20, the named timer 1 is cancelled,
/// 0 is sent to another machine, the named timer 5 is updated to 3, and the state time-out is updated to 4.
///
/// The five messages: 1 and 3 to another machine, 2 between them to a third, then 4 to the machine itself, and 5 to the
/// machine of the six requests.
///
/// The five replies: 57 to the third request, 40 to the first, 58 to another machine's, 51 to the second, and 59 to the
/// third.
///
/// | Argument | Start |
/// |---|---|
/// | 0 | a machine |
/// | 1 | ignored |
/// | 2 | a machine, with five hibernations |
/// | 3 | a machine, with `Postpone(true)`, and inserts 20 as internal and 21 as a cast |
/// | 5 | a machine, and sets the named timer 5 for 5 |
/// | 6 | a machine, and sets the named timer 1 for 4294967295 |
/// | 7 | a machine, and sets the named timers 1, 2 and 3 for 20, 10 and 20 |
/// | 8 | a machine, sets the named timer 1 for 0, and inserts 20 as internal and 21 as a cast |
/// | 9 | a machine, with the nine actions above |
/// | 10 | a machine, and updates the named timer 5 to 4 |
/// | 11 | a machine, and sets the named timer 5 for 5, with the content 43 |
/// | 12 | a machine, and sends 5 to another machine |
/// | other | stops, and is the reason |
///
/// The number tells one module from another. From 60 on a module has enter calls.
///
/// | Number | Outcome of `enter` |
/// |---|---|
/// | 61 | keeps the data where the old state is the new one, and else gives 31 from the state 0 and 32 from another |
/// | 62 | keeps the data, with a reply of 60, and sets the state time-out for 20 and the named timer 1 for 9 |
/// | 63 | keeps the data, with five hibernations |
/// | 64 | gives the data 40 where it is handed 9, and else 41 |
/// | 65 | keeps the data, with a reply of 62, where the old state is not the new one |
/// | 66 | keeps the data, and, where the old state is not the new one, sets the named timer 2 for 3, replies 63 to the third request, hibernates, sets the state time-out for 20 and the named timer 2 for 9, and replies 64 to the first request |
/// | 67 | keeps the data, and updates the named timer 5 to 4 where the old state is not the new one |
/// | 68 | keeps the data, and cancels the named timer 5 where the old state is not the new one |
/// | 70 | stops for the reason 4 |
/// | 71 | stops for the reason 4, with a reply of 61 and the data 8, where the old state is not the new one |
/// | 72 | stops for the reason 4 where the old state is not the new one |
/// | 73 | stops for the reason 4, with the five replies above and the data 8, where the old state is not the new one |
/// | other | keeps the data |
#[derive(Clone, Copy, Debug, PartialEq, Eq)]
pub struct Table {
    pub number: u64,
}

/// A list with one element more.
fn with<T: Drop>(list: SmallList<T>, element: T) -> Result<SmallList<T>, AllocError>
    ensures { IfOk result (λ longer. longer ≡ list ++ element ∷ []) }
{
    let mut longer = list;
    longer.push(element)?;
    Ok(longer)
}

/// A list of one element.
fn one<T: Drop>(alloc: Global, first: T) -> Result<SmallList<T>, AllocError>
    ensures { IfOk result (λ list. list ≡ first ∷ []) }
{
    with(SmallList::new(alloc), first)
}

/// A list of two elements.
fn two<T: Drop>(alloc: Global, first: T, second: T) -> Result<SmallList<T>, AllocError>
    ensures { IfOk result (λ list. list ≡ first ∷ second ∷ []) }
{
    with(one(alloc, first)?, second)
}

/// A list of four elements.
fn four<T: Drop>(
    alloc: Global,
    first: T,
    second: T,
    third: T,
    fourth: T,
) -> Result<SmallList<T>, AllocError>
    ensures { IfOk result (λ list. list ≡ first ∷ second ∷ third ∷ fourth ∷ []) }
{
    let list = with(two(alloc, first, second)?, third)?;
    with(list, fourth)
}

/// Five hibernations, one action more than a list holds without memory.
fn five(alloc: Global) -> Result<Actions<u32>, AllocError>
    ensures { IfOk result (λ actions. actions ≡ five_actions) }
{
    let actions = four(
        alloc,
        Action::Hibernate,
        Action::Hibernate,
        Action::Hibernate,
        Action::Hibernate,
    )?;
    with(actions, Action::Hibernate)
}

/// Nine actions, of each kind one or more.
fn of_each_kind(alloc: Global) -> Result<Actions<u32>, AllocError>
    ensures { IfOk result (λ actions. actions ≡ actions_of_each_kind) }
{
    let actions = four(
        alloc,
        set(Timer::Named(1), 5),
        Action::Reply(SECOND, 54),
        Action::NextEvent(Kind::Internal, 20),
        Action::Postpone(true),
    )?;
    let actions = with(actions, Action::Hibernate)?;
    let actions = with(actions, set(Timer::State, 10))?;
    let actions = with(actions, Action::NextEvent(Kind::Cast, 21))?;
    let actions = with(actions, set(Timer::Named(1), 7))?;
    with(actions, Action::Reply(TAG, 55))
}

/// Five replies, one more than a list holds without memory.
fn replies(alloc: Global) -> Result<Replies<u32>, AllocError>
    ensures { IfOk result (λ replies. replies ≡ five_replies) }
{
    let replies = four(alloc, (THIRD, 57), (TAG, 40), (FOREIGN, 58), (SECOND, 51))?;
    with(replies, (THIRD, 59))
}

/// Two events are inserted.
fn inserts(alloc: Global) -> Result<Actions<u32>, AllocError>
    ensures { IfOk result (λ actions. actions ≡ two_inserts) }
{
    two(
        alloc,
        Action::NextEvent(Kind::Internal, 20),
        Action::NextEvent(Kind::Cast, 21),
    )
}

/// Two events are inserted behind one action.
fn with_inserts(alloc: Global, first: Action<u32>) -> Result<Actions<u32>, AllocError>
    ensures { IfOk result (λ actions. actions ≡ first ∷ two_inserts) }
{
    let actions = two(alloc, first, Action::NextEvent(Kind::Internal, 20))?;
    with(actions, Action::NextEvent(Kind::Cast, 21))
}

/// A timer is set to come with the content 0.
fn set(timer: Timer, milliseconds: u32) -> Action<u32>
    ensures { result ≡ action.Set timer (time.After milliseconds) 0 }
{
    Action::Set(timer, Time::After(milliseconds), 0)
}

/// The event is postponed, and three timers are set.
fn postpone_and_settings(alloc: Global) -> Result<Actions<u32>, AllocError>
    ensures { IfOk result (λ actions. actions ≡ action.Postpone true ∷ action.Set (timer.Named 1) (time.After 5) 0 ∷ action.Set timer.State (time.After 10) 0 ∷ action.Set (timer.Named 2) (time.After 5) 0 ∷ []) }
{
    four(
        alloc,
        Action::Postpone(true),
        set(Timer::Named(1), 5),
        set(Timer::State, 10),
        set(Timer::Named(2), 5),
    )
}

/// What `handle` answers to the contents that ask for more than a list holds without memory.
fn handle_at_length(
    alloc: Global,
    content: u32,
    held: u32,
) -> Result<Outcome<u32, u32, u32>, AllocError>
    ensures { IfOk result (λ outcome. outcome ≡ handled_at_length content held) }
{
    match content {
        41 => Ok(Outcome::NextState(1, held, of_each_kind(alloc)?)),
        42 => Ok(Outcome::StopAndReply(9, replies(alloc)?, None)),
        _ => handle_updating(alloc, content, held),
    }
}

/// Six requests to timers, of which of two for one timer the last decides, and a message.
fn requests(alloc: Global) -> Result<Actions<u32>, AllocError>
    ensures { IfOk result (λ actions. actions ≡ six_requests) }
{
    let actions = four(
        alloc,
        Action::Update(Timer::Named(1), 4),
        set(Timer::Named(5), 20),
        Action::Cancel(Timer::Named(1)),
        Action::Send(FOREIGN.machine, 0),
    )?;
    let actions = with(actions, Action::Update(Timer::Named(5), 3))?;
    with(actions, Action::Update(Timer::State, 4))
}

/// Two messages, with another action between.
fn two_messages(alloc: Global) -> Result<Actions<u32>, AllocError>
    ensures { IfOk result (λ actions. actions ≡ two_sends) }
{
    let actions = two(
        alloc,
        Action::Send(OTHER_MACHINE, 5),
        Action::Postpone(false),
    )?;
    with(actions, Action::Send(THIRD_MACHINE, 6))
}

/// A message, a setting of a timer and an insert.
fn message_and_others(alloc: Global) -> Result<Actions<u32>, AllocError>
    ensures { IfOk result (λ actions. actions ≡ send_set_insert) }
{
    let actions = two(
        alloc,
        Action::Send(OTHER_MACHINE, 7),
        set(Timer::Named(5), 5),
    )?;
    with(actions, Action::NextEvent(Kind::Internal, 20))
}

/// Five messages, one more than a list holds without memory.
fn five_messages(alloc: Global) -> Result<Actions<u32>, AllocError>
    ensures { IfOk result (λ actions. actions ≡ five_sends) }
{
    let actions = four(
        alloc,
        Action::Send(OTHER_MACHINE, 1),
        Action::Send(THIRD_MACHINE, 2),
        Action::Send(OTHER_MACHINE, 3),
        Action::Send(TAG.machine, 4),
    )?;
    with(actions, Action::Send(FOREIGN.machine, 5))
}

/// What `handle` answers to the contents that send.
fn handle_sending(
    alloc: Global,
    content: u32,
    held: u32,
) -> Result<Outcome<u32, u32, u32>, AllocError>
    ensures { IfOk result (λ outcome. outcome ≡ handled_by_sending content held) }
{
    let actions = match content {
        52 => two_messages(alloc),
        53 => return Ok(Outcome::NextState(1, held, message_and_others(alloc)?)),
        54 => five_messages(alloc),
        55 => one(alloc, Action::Send(OTHER_MACHINE, 8)),
        _ => Ok(Actions::new(alloc)),
    };
    Ok(Outcome::KeepStateAndData(actions?))
}

/// What `handle` answers to the contents that update and cancel.
fn handle_updating(
    alloc: Global,
    content: u32,
    held: u32,
) -> Result<Outcome<u32, u32, u32>, AllocError>
    ensures { IfOk result (λ outcome. outcome ≡ handled_by_updating content held) }
{
    let update = Action::Update(Timer::Named(5), 4);
    let actions = match content {
        43 => one(alloc, update),
        44 => two(alloc, set(Timer::Named(5), 20), update),
        45 => two(alloc, update, set(Timer::Named(5), 20)),
        46 => one(alloc, Action::Cancel(Timer::Named(5))),
        47 => one(alloc, set(Timer::Named(5), 10)),
        48 => one(alloc, Action::Update(Timer::Event, 4)),
        49 => one(alloc, Action::Update(Timer::State, 4)),
        50 => {
            let actions = one(alloc, Action::Update(Timer::State, 4))?;
            return Ok(Outcome::NextState(1, held, actions));
        }
        51 => requests(alloc),
        _ => return handle_sending(alloc, content, held),
    };
    Ok(Outcome::KeepStateAndData(actions?))
}

/// What `handle` answers to the contents that reply.
fn handle_replying(
    alloc: Global,
    content: u32,
    held: u32,
) -> Result<Outcome<u32, u32, u32>, AllocError>
    ensures { IfOk result (λ outcome. outcome ≡ handled_by_replying content held) }
{
    match content {
        37 => Ok(Outcome::StopAndReply(9, two(alloc, (TAG, 40), (SECOND, 51))?, None)),
        38 => Ok(Outcome::NextState(1, held, one(alloc, Action::Reply(SECOND, 52))?)),
        39 => Ok(Outcome::KeepStateAndData(two(
            alloc,
            Action::Reply(TAG, 50),
            Action::Reply(TAG, 51),
        )?)),
        40 => Ok(Outcome::KeepStateAndData(one(alloc, Action::Reply(FOREIGN, 53))?)),
        _ => handle_at_length(alloc, content, held),
    }
}

/// What `handle` answers to the contents that have a state entered.
fn handle_entering(
    alloc: Global,
    content: u32,
    held: u32,
) -> Result<Outcome<u32, u32, u32>, AllocError>
    ensures { IfOk result (λ outcome. outcome ≡ handled_by_entering content held) }
{
    match content {
        32 => Ok(Outcome::RepeatStateAndData(Actions::new(alloc))),
        33 => Ok(Outcome::RepeatState(9, Actions::new(alloc))),
        34 => Ok(Outcome::NextState(2, 9, Actions::new(alloc))),
        35 => Ok(Outcome::NextState(1, held, postpone_and_settings(alloc)?)),
        36 => Ok(Outcome::RepeatStateAndData(one(alloc, Action::Postpone(true))?)),
        _ => handle_replying(alloc, content, held),
    }
}

/// What `handle` answers to the contents that set timers.
fn handle_setting(
    alloc: Global,
    content: u32,
    held: u32,
) -> Result<Outcome<u32, u32, u32>, AllocError>
    ensures { IfOk result (λ outcome. outcome ≡ handled_by_setting content held) }
{
    let actions = match content {
        22 => two(alloc, set(Timer::State, 0), set(Timer::Event, 0)),
        23 => two(alloc, set(Timer::Event, 0), set(Timer::State, 0)),
        24 => one(alloc, Action::Set(Timer::Named(5), Time::Infinity, 0)),
        25 => two(
            alloc,
            set(Timer::Named(1), 0),
            Action::NextEvent(Kind::Internal, 26),
        ),
        26 => one(alloc, set(Timer::Named(1), 5)),
        27 => {
            let actions = one(alloc, set(Timer::State, 10))?;
            return Ok(Outcome::NextState(1, held, actions));
        }
        28 => one(alloc, set(Timer::State, 5)),
        29 => one(alloc, set(Timer::Event, 5)),
        30 => one(alloc, Action::Set(Timer::Named(2), Time::After(0), 10)),
        31 => two(alloc, set(Timer::Named(1), 5), set(Timer::Named(1), 7)),
        _ => return handle_entering(alloc, content, held),
    };
    Ok(Outcome::KeepStateAndData(actions?))
}

/// Three timers are set, two of them for the same time.
fn three(alloc: Global) -> Result<Actions<u32>, AllocError>
    ensures { IfOk result (λ actions. actions ≡ three_settings) }
{
    let actions = two(alloc, set(Timer::Named(1), 20), set(Timer::Named(2), 10))?;
    with(actions, set(Timer::Named(3), 20))
}

/// What `handle` answers in any state, where the content is not one of those of the first state.
fn handle_anywhere(
    alloc: Global,
    content: u32,
    held: u32,
) -> Result<Outcome<u32, u32, u32>, AllocError>
    ensures { IfOk result (λ outcome. outcome ≡ handled_anywhere content held) }
{
    let actions = match content {
        3 => return Ok(Outcome::NextState(1, held, Actions::new(alloc))),
        4 => return Ok(Outcome::KeepState(9, Actions::new(alloc))),
        5 => two(alloc, Action::Reply(TAG, 50), Action::Hibernate),
        6 => five(alloc),
        7 => inserts(alloc),
        8 => two(
            alloc,
            Action::NextEvent(Kind::Internal, 7),
            Action::NextEvent(Kind::Cast, 21),
        ),
        9 => return Ok(Outcome::NextState(0, held, Actions::new(alloc))),
        15 => return Ok(Outcome::Stop(9, None)),
        16 => return Ok(Outcome::Stop(9, Some(8))),
        17 => return Ok(Outcome::StopAndReply(9, one(alloc, (TAG, 40))?, Some(8))),
        _ => return handle_setting(alloc, content, held),
    };
    Ok(Outcome::KeepStateAndData(actions?))
}

/// What `handle` answers in the first state.
fn handle_at_first(
    alloc: Global,
    content: u32,
    held: u32,
) -> Result<Outcome<u32, u32, u32>, AllocError>
    ensures { IfOk result (λ outcome. outcome ≡ handled_at_first content held) }
{
    let actions = match content {
        10 => one(alloc, Action::Postpone(true)),
        11 => {
            let actions = with_inserts(alloc, Action::Postpone(true))?;
            return Ok(Outcome::NextState(1, held, actions));
        }
        12 => with_inserts(alloc, Action::Postpone(true)),
        13 => two(alloc, Action::Postpone(false), Action::Postpone(true)),
        14 => two(alloc, Action::Postpone(true), Action::Postpone(false)),
        _ => return handle_anywhere(alloc, content, held),
    };
    Ok(Outcome::KeepStateAndData(actions?))
}

/// The actions of the module 62's enter call.
fn entering(alloc: Global) -> Result<EnterActions<u32>, AllocError>
    ensures { IfOk result (λ actions. actions ≡ entering_actions) }
{
    let actions = two(
        alloc,
        EnterAction::Reply(TAG, 60),
        EnterAction::Set(Timer::State, Time::After(20), 0),
    )?;
    with(
        actions,
        EnterAction::Set(Timer::Named(1), Time::After(9), 0),
    )
}

/// Five hibernations of an enter call.
fn five_entering(alloc: Global) -> Result<EnterActions<u32>, AllocError>
    ensures { IfOk result (λ actions. actions ≡ five_enter_actions) }
{
    let actions = four(
        alloc,
        EnterAction::Hibernate,
        EnterAction::Hibernate,
        EnterAction::Hibernate,
        EnterAction::Hibernate,
    )?;
    with(actions, EnterAction::Hibernate)
}

/// Six actions of the module 66's enter call, of each kind one or more.
fn entering_of_each_kind(alloc: Global) -> Result<EnterActions<u32>, AllocError>
    ensures { IfOk result (λ actions. actions ≡ enter_actions_of_each_kind) }
{
    let actions = four(
        alloc,
        EnterAction::Set(Timer::Named(2), Time::After(3), 0),
        EnterAction::Reply(THIRD, 63),
        EnterAction::Hibernate,
        EnterAction::Set(Timer::State, Time::After(20), 0),
    )?;
    let actions = with(
        actions,
        EnterAction::Set(Timer::Named(2), Time::After(9), 0),
    )?;
    with(actions, EnterAction::Reply(TAG, 64))
}

/// What `enter` answers where a state is come to from another.
fn enter_changed(
    alloc: Global,
    number: u64,
    old: u32,
    held: u32,
) -> Result<EnterOutcome<u32, u32>, AllocError>
    ensures { IfOk result (λ outcome. outcome ≡ changed_by_table number old held) }
{
    let actions = match number {
        61 => {
            let data = if old == 0 { 31 } else { 32 };
            return Ok(EnterOutcome::KeepState(data, EnterActions::new(alloc)));
        }
        71 => return Ok(EnterOutcome::StopAndReply(4, one(alloc, (TAG, 61))?, Some(8))),
        72 => return Ok(EnterOutcome::Stop(4, None)),
        73 => return Ok(EnterOutcome::StopAndReply(4, replies(alloc)?, Some(8))),
        66 => entering_of_each_kind(alloc),
        67 => one(alloc, EnterAction::Update(Timer::Named(5), 4)),
        68 => one(alloc, EnterAction::Cancel(Timer::Named(5))),
        65 => one(alloc, EnterAction::Reply(TAG, 62)),
        _ => Ok(EnterActions::new(alloc)),
    };
    Ok(EnterOutcome::KeepStateAndData(actions?))
}

impl Module for Table {
    type State = u32;

    type Data = u32;

    type Content = u32;

    type Arg = u32;

    ghost init_is = { λ table arg. begun_by_table arg };

    ghost handle_is = { λ table kind content state held. handled_by_table content state held };

    ghost enters_is = { λ table. enters_by_table table.number };

    ghost enter_is = { λ table old state held. entered_by_table table.number old state held };

    ghost terminate_is = { λ table reason state held. held };

    fn init(&self, alloc: Global, arg: &u32) -> Result<Init<u32, u32, u32>, AllocError> {
        let actions = match *arg {
            0 => Ok(Actions::new(alloc)),
            1 => return Ok(Init::Ignore),
            2 => five(alloc),
            3 => with_inserts(alloc, Action::Postpone(true)),
            5 => one(alloc, set(Timer::Named(5), 5)),
            6 => one(alloc, set(Timer::Named(1), 4_294_967_295)),
            7 => three(alloc),
            8 => with_inserts(alloc, set(Timer::Named(1), 0)),
            9 => of_each_kind(alloc),
            10 => one(alloc, Action::Update(Timer::Named(5), 4)),
            11 => one(alloc, Action::Set(Timer::Named(5), Time::After(5), 43)),
            12 => one(alloc, Action::Send(OTHER_MACHINE, 5)),
            reason => return Ok(Init::Stop(reason)),
        };
        Ok(Init::Ok(0, 7, actions?))
    }

    fn handle(
        &self,
        alloc: Global,
        _kind: Kind,
        content: &u32,
        state: u32,
        held: &u32,
    ) -> Result<Outcome<u32, u32, u32>, AllocError> {
        if state == 0 {
            handle_at_first(alloc, *content, *held)
        } else {
            handle_anywhere(alloc, *content, *held)
        }
    }

    fn enters(&self) -> bool {
        self.number >= 60
    }

    fn enter(
        &self,
        alloc: Global,
        old: u32,
        state: u32,
        held: &u32,
    ) -> Result<EnterOutcome<u32, u32>, AllocError> {
        match self.number {
            62 => Ok(EnterOutcome::KeepStateAndData(entering(alloc)?)),
            63 => Ok(EnterOutcome::KeepStateAndData(five_entering(alloc)?)),
            64 => {
                let data = if *held == 9 { 40 } else { 41 };
                Ok(EnterOutcome::KeepState(data, EnterActions::new(alloc)))
            }
            70 => Ok(EnterOutcome::Stop(4, None)),
            number => {
                if old == state {
                    Ok(EnterOutcome::KeepStateAndData(EnterActions::new(alloc)))
                } else {
                    enter_changed(alloc, number, old, *held)
                }
            }
        }
    }

    fn terminate(&self, _reason: Reason, _state: u32, held: &u32) -> u32 {
        *held
    }

    fn copy_content(&self, _alloc: Global, content: &u32) -> Result<u32, AllocError> {
        Ok(*content)
    }

    fn copy_data(&self, _alloc: Global, held: &u32) -> Result<u32, AllocError> {
        Ok(*held)
    }

    ghost lawful = { Prim.search rules };
}
