//! Tests of st_agenda: each call once with memory at hand, and all of them where one allocation is refused.
ghost use Rattle.std.specs.Prelude.{◌≡◌, ◌+◌, ◌<◌, ◌≤◌, length};
ghost use Rattle.st_events.specs.Timers.{AskedOnce};
ghost use Rattle.st_actions.specs.Plan.{inserts_of};
ghost use Rattle.st_actions.specs.Taking.{all_settings_of};

use super::host::{Host, got, holds, is_count, is_moment, is_number, same};
use st_actions::count_last;
use st_agenda::{Agenda, Item, Schedule};
use st_events::{Action, Actions, CopyContent, Event, Kind, PlainList, Time, Timer};
use st_steps::Steps;
use st_timeouts::{Due, Running};
use std::alloc::{AllocError, Global};
use std::marker::Brand;
use std::process::Abort;
use std::sync::ledger::{Blank, Ledger};

/// A call of an agenda with what it is to answer, or a look at it.
#[derive(Clone, Copy)]
enum Call {
    /// A cast of this content is posted, and gets this number.
    Push(u64, u64),
    /// The next event is handled.
    Settle(Turn),
    /// Time passes to a moment, and so many time-outs expire.
    Tick(u32, usize),
    /// A look at what there is.
    Shows(Shows),
}

/// A look at an agenda, and what it is to show.
#[derive(Clone, Copy)]
enum Shows {
    /// This event comes next: its number, its kind and its content; and so many wait.
    Comes(u64, Kind, u64, usize),
    /// Nothing comes next, and nothing waits.
    NothingComes,
    /// These time-outs run, in this order, and no others.
    Run(&'static [(Timer, u64, Due)]),
    /// The number that the next event gets, and when the next time-out expires.
    Next(u64, Option<u64>),
    /// The updates among these settings would take so many numbers, where the state changes or not.
    Updates(&'static [Asks], bool, u64),
}

/// What is asked of a timer: to be set for a time with the content of its event, to be stopped, or to have another
/// content.
#[derive(Clone, Copy)]
enum Asks {
    Set(Timer, Time, u64),
    Cancel(Timer),
    Update(Timer, u64),
}

/// How the next event, which has this number, is handled at a moment: it is postponed or not, the state changes or not,
/// events of these contents are inserted, and this is asked of timers.
#[derive(Clone, Copy)]
struct Turn {
    now: u32,
    number: u64,
    postpone: bool,
    changed: bool,
    inserts: &'static [u64],
    settings: &'static [Asks],
}

/// The event of this number is handled at the moment 0, and is finished, and nothing else comes of it.
const FINISHED: Turn = Turn {
    now: 0,
    number: 1,
    postpone: false,
    changed: false,
    inserts: &[],
    settings: &[],
};

/// The event that comes next: its number, its kind and its content.
type Seen = Option<(u64, Kind, u64)>;

/// The event that comes next.
fn seen(agenda: &Agenda<u64>) -> Seen {
    let (number, kind, content) = agenda.next()?;
    Some((number, kind, *content))
}

/// All that can be read of an agenda without memory: the next event with its kind and its content, how
/// many events wait, the next number, and when the next time-out expires.
fn readable(agenda: &Agenda<u64>) -> (Seen, usize, u64, Option<u64>) {
    (
        seen(agenda),
        agenda.waiting(),
        agenda.next_number(),
        agenda.next_due(),
    )
}

/// The time-outs that run. Where memory was refused, they are read again.
fn listed(rt: &Host<impl Abort>, agenda: &Agenda<u64>) -> PlainList<(Timer, u64, Due)> {
    if let Ok(timers) = agenda.timers() {
        return timers;
    }
    rt.retry();
    got(rt, "one allocation alone is refused", agenda.timers())
}

/// Looks that these time-outs run, in this order, and no others.
fn run(rt: &Host<impl Abort>, agenda: &Agenda<u64>, wanted: &[(Timer, u64, Due)]) {
    let found = listed(rt, agenda);
    same(rt, "what runs", &found.as_slice(), &wanted);
}

/// Looks which event comes next, with its number, its kind and its content; and that so many wait.
fn comes(rt: &impl Abort, agenda: &Agenda<u64>, event: Seen, waiting: usize) {
    same(rt, "the next event", &seen(agenda), &event);
    is_count(rt, "how many wait", agenda.waiting(), waiting);
}

/// Looks which number the next event gets, and when the next time-out expires.
fn next(rt: &impl Abort, agenda: &Agenda<u64>, number: u64, due: Option<u64>) {
    is_number(rt, "the next number", agenda.next_number(), number);
    is_moment(rt, "the next moment", agenda.next_due(), due);
}

/// Looks that what can be read without memory is as it was.
fn reads_as(rt: &impl Abort, agenda: &Agenda<u64>, before: &(Seen, usize, u64, Option<u64>)) {
    let is_same = readable(agenda) == *before;
    holds(rt, "what is refused or copied changes nothing", is_same);
}

/// All that can be read of an agenda: what takes no memory, and the time-outs that run.
#[derive(Drop)]
struct Whole {
    readable: (Seen, usize, u64, Option<u64>),
    running: PlainList<(Timer, u64, Due)>,
}

/// All that can be read of an agenda.
fn read_all(rt: &Host<impl Abort>, agenda: &Agenda<u64>) -> Whole {
    Whole {
        readable: readable(agenda),
        running: listed(rt, agenda),
    }
}

/// Looks that all is as it was, before a call that was refused, and that is made again.
fn unchanged(rt: &Host<impl Abort>, agenda: &Agenda<u64>, before: &Whole) {
    reads_as(rt, agenda, &before.readable);
    run(rt, agenda, before.running.as_slice());
    rt.retry();
}

/// Looks that the next number is low, as it is in a test.
fn numbers_are_low(rt: &impl Abort, agenda: &Agenda<u64>)
    ensures { agenda.now.schedule.next_number ≤ 1_000 }
{
    holds(rt, "the numbers are low", agenda.next_number() <= 1_000);
}

/// Posts a cast again, for which there was no memory.
fn push_again(rt: &Host<impl Abort>, agenda: &mut Agenda<u64>, content: u64) -> u64 {
    numbers_are_low(rt, agenda);
    match agenda.push(Kind::Cast, content) {
        Ok(given) => given,
        Err(_) => panic!(rt; "one allocation alone is refused"),
    }
}

/// Posts a cast. Where memory was refused, nothing has changed, the content comes back, and it is
/// posted again.
fn push(rt: &Host<impl Abort>, agenda: &mut Agenda<u64>, content: u64, number: u64) {
    numbers_are_low(rt, agenda);
    let before = read_all(rt, agenda);
    let given = match agenda.push(Kind::Cast, content) {
        Ok(given) => given,
        Err(failed) => {
            holds(rt, "the content comes back", failed.value == content);
            unchanged(rt, agenda, &before);
            push_again(rt, agenda, content)
        }
    };
    is_number(rt, "the number that it gets", given, number);
}

/// Reserves for inserted events and timers. Where memory was refused, nothing has changed, and the call
/// is made again.
fn reserve_for(rt: &Host<impl Abort>, agenda: &mut Agenda<u64>, inserts: usize, timers: usize)
    requires { inserts ≤ 100 }
    ensures staged { inserts + 1 ≤ agenda.new.staged }
    ensures reserved { timers ≤ agenda.new.reserved }
    ensures unchanged { agenda.new.schedule ≡ agenda.old.schedule }
{
    let before = read_all(rt, agenda);
    if agenda.reserve_for(inserts, timers).is_err() {
        unchanged(rt, agenda, &before);
        let reserved = agenda.reserve_for(inserts, timers);
        got(rt, "one allocation alone is refused", reserved);
    }
}

/// Adds an action to a list.
fn add(rt: &impl Abort, actions: &mut Actions<u64>, action: Action<u64>) {
    got(rt, "a few take no memory", actions.push(action));
}

/// A list of actions: events of these contents are inserted, and this is asked of timers.
fn actions_of(rt: &impl Abort, alloc: Global, contents: &[u64], settings: &[Asks]) -> Actions<u64> {
    let mut actions = Actions::new(alloc);
    for content in contents {
        add(
            rt,
            &mut actions,
            Action::NextEvent(Kind::Internal, *content),
        );
    }
    for asks in settings {
        add(rt, &mut actions, action_of(*asks));
    }
    actions
}

/// The action that asks for it.
fn action_of(asks: Asks) -> Action<u64> {
    match asks {
        Asks::Set(timer, time, content) => Action::Set(timer, time, content),
        Asks::Cancel(timer) => Action::Cancel(timer),
        Asks::Update(timer, content) => Action::Update(timer, content),
    }
}

/// How many events a list of actions inserts, and how much it asks of timers, where the last of each is left.
fn counted(rt: &impl Abort, alloc: Global, actions: &mut Actions<u64>) -> (usize, usize)
    ensures inserts { result.0 ≡ length (inserts_of actions.new) }
    ensures settings { result.1 ≡ length (all_settings_of actions.new) }
    ensures once { AskedOnce (all_settings_of actions.new) }
    ensures few_inserts { result.0 ≤ 100 }
    ensures few_settings { result.1 ≤ 100 }
{
    let kept = count_last(alloc, actions);
    let counts = got(rt, "a few take no memory", kept);
    holds(rt, "there are few events", counts.inserts <= 100);
    holds(rt, "there are few settings", counts.settings <= 100);
    (counts.inserts, counts.settings)
}

/// The next event is handled.
fn settle(rt: &Host<impl Abort>, agenda: &mut Agenda<u64>, alloc: Global, turn: Turn) {
    let mut actions = actions_of(rt, alloc, turn.inserts, turn.settings);
    let Some((next, _, _)) = agenda.next() else {
        panic!(rt; "an event comes next")
    };
    holds(rt, "it has this number", next == turn.number);
    numbers_are_low(rt, agenda);
    let (inserts, settings) = counted(rt, alloc, &mut actions);
    reserve_for(rt, agenda, inserts, settings);
    agenda.settle(next, turn.postpone, turn.changed);
    agenda.insert(inserts, &mut actions);
    agenda.set_all(turn.now as u64, settings, &mut actions);
}

/// Time passes to a moment, and so many time-outs expire.
fn tick(rt: &Host<impl Abort>, agenda: &mut Agenda<u64>, now: u32, expired: usize) {
    tick_in::<_, Brand>(rt, agenda, now, expired, Blank::new(1));
}

/// The same, where the looks at time-outs are counted in a ledger. A call that finds no memory changes nothing that can
/// be read, and is made again.
fn tick_in<R: Abort, L: Ledger>(
    rt: &Host<R>,
    agenda: &mut Agenda<u64>,
    now: u32,
    expired: usize,
    blank: Blank,
)
    requires name { blank.name ≡ L.name }
    requires parts { blank.parts ≡ L.parts }
    requires some { 0 < blank.parts }
{
    let steps = &mut Steps::<L>::new(blank);
    let before = readable(agenda);
    let count = match agenda.expire(now as u64, steps) {
        Ok(count) => count,
        Err(_) => {
            reads_as(rt, agenda, &before);
            rt.retry();
            let count = agenda.expire(now as u64, steps);
            got(rt, "one allocation alone is refused", count)
        }
    };
    is_count(rt, "how many expire", count, expired);
}

/// Looks how many numbers the updates among these settings would take, where the state changes or not.
fn updates(
    rt: &impl Abort,
    agenda: &Agenda<u64>,
    alloc: Global,
    settings: &[Asks],
    changed: bool,
    wanted: u64,
) {
    let actions = actions_of(rt, alloc, &[], settings);
    let taken = agenda.numbers_of_updates(&actions, changed);
    is_number(rt, "how many numbers updates take", taken, wanted);
}

/// Makes a call that changes nothing, and looks at its answer.
fn show(rt: &Host<impl Abort>, agenda: &Agenda<u64>, alloc: Global, call: Shows) {
    match call {
        Shows::Comes(number, kind, content, waiting) => {
            comes(rt, agenda, Some((number, kind, content)), waiting);
        }
        Shows::NothingComes => comes(rt, agenda, None, 0),
        Shows::Run(wanted) => run(rt, agenda, wanted),
        Shows::Next(number, due) => next(rt, agenda, number, due),
        Shows::Updates(settings, changed, wanted) => {
            updates(rt, agenda, alloc, settings, changed, wanted);
        }
    }
}

/// Makes a call, and looks at its answer.
fn make(rt: &Host<impl Abort>, agenda: &mut Agenda<u64>, alloc: Global, call: Call) {
    match call {
        Call::Push(content, number) => push(rt, agenda, content, number),
        Call::Settle(turn) => settle(rt, agenda, alloc, turn),
        Call::Tick(now, expired) => tick(rt, agenda, now, expired),
        Call::Shows(call) => show(rt, agenda, alloc, call),
    }
}

/// Makes calls one after the other, and looks at their answers.
fn make_all(rt: &Host<impl Abort>, agenda: &mut Agenda<u64>, alloc: Global, calls: &[Call]) {
    for call in calls {
        make(rt, agenda, alloc, *call);
    }
}

/// An agenda with nothing on it, whose first event gets this number.
fn begun(rt: &Host<impl Abort + AllocGlobal>, number: u64) -> Box<Agenda<u64>>
    requires { number ≤ 1_000 }
{
    rt.boxed(rt.alloc(), Agenda::new(rt.alloc(), number))
}

/// Makes calls of an agenda that has nothing on it, one after the other, and looks at their answers.
fn answer_all(rt: &Host<impl Abort + AllocGlobal>, calls: &[Call]) {
    let mut agenda = begun(rt, 1);
    make_all(rt, &mut agenda, rt.alloc(), calls);
}

/// A postponed event keeps its place, an inserted one comes before those posted, a time-out expires
/// behind them, and a state change retries.
#[test]
fn events_come_in_their_order(rt: HostRuntime) {
    static CALLS: [Call; 23] = [
        Call::Shows(Shows::NothingComes),
        Call::Shows(Shows::Next(1, None)),
        Call::Push(10, 1),
        Call::Push(20, 2),
        Call::Shows(Shows::Comes(1, Kind::Cast, 10, 2)),
        Call::Settle(Turn {
            postpone: true,
            inserts: &[30],
            settings: &[Asks::Set(Timer::Named(1), Time::After(5), 40)],
            ..FINISHED
        }),
        Call::Shows(Shows::Run(&[(Timer::Named(1), 4, Due::At(5))])),
        Call::Shows(Shows::Next(5, Some(5))),
        Call::Shows(Shows::Comes(3, Kind::Internal, 30, 3)),
        Call::Settle(Turn {
            number: 3,
            ..FINISHED
        }),
        Call::Shows(Shows::Comes(2, Kind::Cast, 20, 2)),
        Call::Tick(4, 0),
        Call::Tick(5, 1),
        Call::Shows(Shows::Next(5, None)),
        Call::Tick(6, 0),
        Call::Shows(Shows::Comes(2, Kind::Cast, 20, 2)),
        Call::Settle(Turn {
            now: 6,
            number: 2,
            changed: true,
            ..FINISHED
        }),
        Call::Shows(Shows::Comes(1, Kind::Cast, 10, 1)),
        Call::Settle(Turn { now: 6, ..FINISHED }),
        Call::Shows(Shows::Comes(4, Kind::Timeout(Timer::Named(1)), 40, 0)),
        Call::Settle(Turn {
            now: 6,
            number: 4,
            ..FINISHED
        }),
        Call::Shows(Shows::NothingComes),
        Call::Shows(Shows::Next(5, None)),
    ];
    let rt = Host::new(rt);
    let mut agenda = begun(&rt, 1);
    make_all(&rt, &mut agenda, rt.alloc(), &CALLS);
    run(&rt, &agenda, &[]);
    rt.end();
}

/// Two time-outs of no length: the first one that was set comes, and the event time-out is
/// cancelled by it.
#[test]
fn a_zero_timeout_comes_before_what_was_not_received(rt: HostRuntime) {
    static CALLS: [Call; 9] = [
        Call::Push(10, 1),
        Call::Push(20, 2),
        Call::Settle(Turn {
            settings: &[
                Asks::Set(Timer::State, Time::After(0), 30),
                Asks::Set(Timer::Event, Time::After(0), 40),
            ],
            ..FINISHED
        }),
        Call::Shows(Shows::Run(&[(Timer::State, 3, Due::Zero), (Timer::Event, 4, Due::Zero)])),
        Call::Shows(Shows::Next(5, None)),
        Call::Shows(Shows::Comes(3, Kind::Timeout(Timer::State), 30, 1)),
        Call::Settle(Turn {
            number: 3,
            ..FINISHED
        }),
        Call::Shows(Shows::Comes(2, Kind::Cast, 20, 1)),
        Call::Shows(Shows::Run(&[])),
    ];
    let rt = Host::new(rt);
    answer_all(&rt, &CALLS);
    rt.end();
}

/// Expiries wait, and their time-outs are stopped, by a time without end and by a cancel: they never come, and nothing is
/// left that a turn could handle.
#[test]
fn an_expiry_of_a_stopped_timer_is_passed_over(rt: HostRuntime) {
    static CALLS: [Call; 8] = [
        Call::Push(10, 1),
        Call::Settle(Turn {
            settings: &[
                Asks::Set(Timer::Named(5), Time::After(5), 30),
                Asks::Set(Timer::Named(6), Time::After(5), 40),
            ],
            ..FINISHED
        }),
        Call::Push(20, 4),
        Call::Tick(5, 2),
        Call::Settle(Turn {
            now: 5,
            number: 4,
            settings: &[
                Asks::Set(Timer::Named(5), Time::Infinity, 0),
                Asks::Cancel(Timer::Named(6)),
            ],
            ..FINISHED
        }),
        Call::Shows(Shows::NothingComes),
        Call::Shows(Shows::Run(&[])),
        Call::Shows(Shows::Next(5, None)),
    ];
    let rt = Host::new(rt);
    answer_all(&rt, &CALLS);
    rt.end();
}

/// A time-out is updated while it runs, and again while its expiry waits: it keeps its number, its moment and its place,
/// and comes once, with the last content.
#[test]
fn an_update_leaves_all_else(rt: HostRuntime) {
    static CALLS: [Call; 20] = [
        Call::Push(10, 1),
        Call::Settle(Turn {
            settings: &[
                Asks::Set(Timer::Named(1), Time::After(5), 30),
                Asks::Set(Timer::Named(2), Time::After(9), 40),
            ],
            ..FINISHED
        }),
        Call::Push(20, 4),
        Call::Push(60, 5),
        Call::Settle(Turn {
            now: 3,
            number: 4,
            settings: &[Asks::Update(Timer::Named(1), 50)],
            ..FINISHED
        }),
        Call::Shows(Shows::Run(&[
            (Timer::Named(1), 2, Due::At(5)),
            (Timer::Named(2), 3, Due::At(9)),
        ])),
        Call::Shows(Shows::Next(6, Some(5))),
        Call::Tick(5, 1),
        Call::Shows(Shows::Comes(5, Kind::Cast, 60, 1)),
        Call::Settle(Turn {
            now: 6,
            number: 5,
            settings: &[Asks::Update(Timer::Named(1), 70)],
            ..FINISHED
        }),
        Call::Shows(Shows::Run(&[
            (Timer::Named(1), 2, Due::At(5)),
            (Timer::Named(2), 3, Due::At(9)),
        ])),
        Call::Shows(Shows::Next(6, Some(9))),
        Call::Tick(8, 0),
        Call::Shows(Shows::Comes(2, Kind::Timeout(Timer::Named(1)), 70, 0)),
        Call::Settle(Turn {
            now: 8,
            number: 2,
            ..FINISHED
        }),
        Call::Shows(Shows::NothingComes),
        Call::Shows(Shows::Run(&[(Timer::Named(2), 3, Due::At(9))])),
        Call::Tick(9, 1),
        Call::Shows(Shows::Comes(3, Kind::Timeout(Timer::Named(2)), 40, 0)),
        Call::Shows(Shows::Next(6, None)),
    ];
    let rt = Host::new(rt);
    answer_all(&rt, &CALLS);
    rt.end();
}

/// An update of a timer that does not run begins a time-out of no length; so does one of the timer whose time-out is
/// handled.
#[test]
fn an_update_of_a_stopped_timer_begins(rt: HostRuntime) {
    static CALLS: [Call; 11] = [
        Call::Push(10, 1),
        Call::Settle(Turn {
            settings: &[Asks::Update(Timer::Named(1), 30)],
            ..FINISHED
        }),
        Call::Shows(Shows::Run(&[(Timer::Named(1), 2, Due::Zero)])),
        Call::Shows(Shows::Next(3, None)),
        Call::Shows(Shows::Comes(2, Kind::Timeout(Timer::Named(1)), 30, 0)),
        Call::Settle(Turn {
            number: 2,
            settings: &[Asks::Update(Timer::Named(1), 40)],
            ..FINISHED
        }),
        Call::Shows(Shows::Run(&[(Timer::Named(1), 3, Due::Zero)])),
        Call::Shows(Shows::Comes(3, Kind::Timeout(Timer::Named(1)), 40, 0)),
        Call::Settle(Turn {
            number: 3,
            ..FINISHED
        }),
        Call::Shows(Shows::NothingComes),
        Call::Shows(Shows::Next(4, None)),
    ];
    let rt = Host::new(rt);
    answer_all(&rt, &CALLS);
    rt.end();
}

/// An update takes a number where its timer does not run when the settings come to be done: the event's never does then,
/// nor the one whose event is handled, nor, at a state change, the state's.
#[test]
fn updates_take_numbers(rt: HostRuntime) {
    static CALLS: [Call; 17] = [
        Call::Push(10, 1),
        Call::Settle(Turn {
            settings: &[
                Asks::Set(Timer::State, Time::After(9), 30),
                Asks::Set(Timer::Event, Time::After(9), 40),
                Asks::Set(Timer::Named(1), Time::After(5), 50),
                Asks::Set(Timer::Named(2), Time::After(0), 60),
            ],
            ..FINISHED
        }),
        Call::Shows(Shows::Comes(5, Kind::Timeout(Timer::Named(2)), 60, 0)),
        Call::Shows(Shows::Updates(&[Asks::Update(Timer::Event, 0)], false, 1)),
        Call::Shows(Shows::Updates(&[Asks::Update(Timer::State, 0)], false, 0)),
        Call::Shows(Shows::Updates(&[Asks::Update(Timer::State, 0)], true, 1)),
        Call::Shows(Shows::Updates(&[Asks::Update(Timer::Named(1), 0)], true, 0)),
        Call::Shows(Shows::Updates(&[Asks::Update(Timer::Named(2), 0)], false, 1)),
        Call::Shows(Shows::Updates(
            &[
                Asks::Update(Timer::Named(2), 0),
                Asks::Set(Timer::Named(3), Time::After(1), 0),
                Asks::Cancel(Timer::Named(4)),
                Asks::Update(Timer::Named(5), 0),
            ],
            false,
            2,
        )),
        Call::Settle(Turn {
            number: 5,
            ..FINISHED
        }),
        Call::Push(70, 6),
        Call::Tick(5, 1),
        Call::Shows(Shows::Comes(6, Kind::Cast, 70, 1)),
        Call::Shows(Shows::Updates(&[Asks::Update(Timer::Named(1), 0)], false, 0)),
        Call::Settle(Turn {
            now: 5,
            number: 6,
            ..FINISHED
        }),
        Call::Shows(Shows::Comes(4, Kind::Timeout(Timer::Named(1)), 50, 0)),
        Call::Shows(Shows::Updates(&[Asks::Update(Timer::Named(1), 0)], false, 1)),
    ];
    let rt = Host::new(rt);
    answer_all(&rt, &CALLS);
    rt.end();
}

/// Stages for one event. Where memory was refused, nothing comes still, and it is staged again.
fn stage_one(rt: &Host<impl Abort>, agenda: &mut Agenda<u64>) {
    if agenda.stage(1).is_err() {
        comes(rt, agenda, None, 0);
        rt.retry();
        got(rt, "one allocation alone is refused", agenda.stage(1));
    }
}

/// Reserves for one timer. Where memory was refused, nothing comes still, and it is reserved again.
fn reserve_one(rt: &Host<impl Abort>, agenda: &mut Agenda<u64>) {
    if agenda.reserve(1).is_err() {
        comes(rt, agenda, None, 0);
        rt.retry();
        got(rt, "one allocation alone is refused", agenda.reserve(1));
    }
}

/// Inserts one event, and sets the state timer at the moment 3 for 10 milliseconds.
fn begin(rt: &Host<impl Abort>, agenda: &mut Agenda<u64>, alloc: Global) {
    let settings = [Asks::Set(Timer::State, Time::After(10), 40)];
    let mut actions = actions_of(rt, alloc, &[30], &settings);
    numbers_are_low(rt, agenda);
    let (inserts, settings) = counted(rt, alloc, &mut actions);
    reserve_for(rt, agenda, inserts, settings);
    agenda.insert(inserts, &mut actions);
    agenda.set_all(3, settings, &mut actions);
}

/// At a start events are inserted and timers set, though no event is handled.
#[test]
fn a_start_inserts_and_sets(rt: HostRuntime) {
    let rt = Host::new(rt);
    let mut agenda = begun(&rt, 7);
    stage_one(&rt, &mut agenda);
    reserve_one(&rt, &mut agenda);
    begin(&rt, &mut agenda, rt.alloc());
    comes(&rt, &agenda, Some((7, Kind::Internal, 30)), 1);
    run(&rt, &agenda, &[(Timer::State, 8, Due::At(13))]);
    rt.end();
}

/// Copies numbers.
#[derive(Drop)]
struct Numbers;

impl CopyContent<u64> for Numbers {
    fn copy_of(&self, _alloc: Global, content: &u64) -> Result<u64, AllocError> {
        Ok(*content)
    }
}

/// A copy of all, made again since memory was refused.
fn copied_again(rt: &Host<impl Abort>, agenda: &mut Agenda<u64>, alloc: Global) -> Schedule<u64> {
    rt.retry();
    match agenda.copy(alloc, &Numbers) {
        Ok(copy) => copy,
        Err(_) => panic!(rt; "one allocation alone is refused"),
    }
}

/// A copy of all. Where memory was refused, nothing has changed, and it is copied again.
fn copied(rt: &Host<impl Abort>, agenda: &mut Agenda<u64>, alloc: Global) -> Schedule<u64> {
    let before = readable(agenda);
    let copy = agenda.copy(alloc, &Numbers);
    reads_as(rt, agenda, &before);
    match copy {
        Ok(copy) => copy,
        Err(_) => copied_again(rt, agenda, alloc),
    }
}

/// A cast with its number and its content.
fn cast(number: u64, content: u64) -> Event<u64> {
    Event {
        number,
        kind: Kind::Cast,
        content,
    }
}

/// Looks at the parts of a copy, of what `all_is_copied_and_stays` made.
fn has_parts(rt: &impl Abort, copy: &Schedule<u64>) {
    let pending = [
        Item::Received(cast(1, 10)),
        Item::Posted(cast(2, 20)),
        Item::Expiry(Timer::Named(2)),
    ];
    let running = [Running {
        timer: Timer::Named(2),
        number: 5,
        due: Due::At(5),
        content: 50,
    }];
    let waits = copy.pending.as_slice() == pending.as_slice();
    holds(rt, "what waits", waits);
    let postponed = copy.postponed.as_slice() == [1].as_slice();
    holds(rt, "the first is postponed", postponed);
    let runs = copy.running.as_slice() == running.as_slice();
    holds(rt, "what runs", runs);
    holds(rt, "the next number", copy.next_number == 6);
}

/// A postponed event, a posted one, an expiry that waits and one whose timer was stopped: the copy has what waits in
/// order and no expiry of the stopped timer, and what comes next comes next still.
#[test]
fn all_is_copied_and_stays(rt: HostRuntime) {
    static CALLS: [Call; 5] = [
        Call::Push(10, 1),
        Call::Push(20, 2),
        Call::Settle(Turn {
            postpone: true,
            inserts: &[30],
            settings: &[
                Asks::Set(Timer::Named(1), Time::After(5), 40),
                Asks::Set(Timer::Named(2), Time::After(5), 50),
            ],
            ..FINISHED
        }),
        Call::Tick(5, 2),
        Call::Settle(Turn {
            now: 5,
            number: 3,
            settings: &[Asks::Set(Timer::Named(1), Time::Infinity, 0)],
            ..FINISHED
        }),
    ];
    let rt = Host::new(rt);
    let mut agenda = begun(&rt, 1);
    make_all(&rt, &mut agenda, rt.alloc(), &CALLS);
    let copy = copied(&rt, &mut agenda, rt.alloc());
    has_parts(&rt, &copy);
    let another = copied(&rt, &mut agenda, rt.alloc());
    holds(&rt, "another copy", copy == another);
    comes(&rt, &agenda, Some((2, Kind::Cast, 20)), 2);
    rt.end();
}
