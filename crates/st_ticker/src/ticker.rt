//! Who tells the machines of a hall the moment.
ghost use Rattle.std.specs.Prelude.{◌≡◌, ◌⊎◌, ◌<◌, ◌^◌, false, Some, None, IsTrue, IfOk, IfErr, IfSome};
ghost use Rattle.st_events.specs.declared.refusal.Refusal.TheVariants.{NoMemory};
ghost use Rattle.st_core.specs.Callbacks.{callbacks_of};
ghost use Rattle.st_core.specs.Choice.{next_due_of};
ghost use Rattle.st_lock.specs.Machines.{IsReadAt, id_of};
ghost use Rattle.st_ticker.specs.Ticks.{WasDueBy, IsTicked, IsLater};

use crate::alarms::Alarms;
use crate::clock::moment;
use crate::next::Next;
use crate::visit::Visit;
use crate::{TickerEnd, Ticks};
use st_hall::{Hall, Machine, MachineId, Module, Refusal, Token};
use st_pool::Gate;
use st_wake::{Wake, schedule};
use std::alloc::{AllocError, Global};
use std::rt::Clock;
use std::sync::{Arc, Condvar, Mutex, Wait};
use std::thread;
use std::time::{Duration, Instant};

/// So many milliseconds after something found no memory it is tried again.
const RETRY: u64 = 5;

/// Tells each machine of a hall the moment when its next time-out is due, and not before.
///
/// It is the gate of the pool that serves the hall: so it is told of each turn, and looks then when the machine is due
/// next. A thread of its own (`TickerThread`) sleeps until the first machine is due, asks that one again, ticks it, and
/// schedules it. `TickedPool::start` starts both.
///
/// That a time-out comes, and when, no contract says: tests show that none comes early, and that each comes.
///
/// Manual: `timeout_action()`, `event_timeout()`, `state_timeout()`, `generic_timeout()`; ours: docs/DECISIONS.md,
/// Tickers.
#[derive(Drop)]
pub struct Ticker<M: Module, R: Wait + Clock + Drop> {
    rt: R,
    start: Instant,
    hall: Arc<Hall<M, R>>,
    // It is never held while a machine's or the hall's lock is taken.
    alarms: Mutex<Alarms>,
    // The first visit is earlier, or the ticker is to end.
    changed: Condvar,
}

impl<M: Module, R: Wait + Clock + Drop> Ticker<M, R> {
    /// A ticker of a hall's machines. Its moments are the milliseconds that have passed since `start`, so all machines of
    /// the hall are to be started at moments that it tells.
    ///
    /// Refused with `AllocError` where there is no memory, or the hall has as many owners as can be counted.
    ///
    /// Ours: docs/DECISIONS.md, Tickers.
    pub fn new(
        rt: R,
        alloc: Global,
        start: Instant,
        hall: &Arc<Hall<M, R>>,
    ) -> Result<Arc<Ticker<M, R>>, AllocError> {
        let ticker = Ticker {
            rt,
            start,
            hall: Arc::try_clone(hall)?,
            alarms: Mutex::new(Alarms::new(alloc)),
            changed: Condvar::new(),
        };
        Ok(Arc::new(alloc, ticker)?)
    }

    /// The moment, in milliseconds, below 2^63. It never goes back as long as the clock can be read; where that cannot be,
    /// it is 0.
    ///
    /// Ours: docs/DECISIONS.md, Tickers.
    pub fn now(&self) -> u64
        ensures below { result < 2 ^ 63 }
    {
        moment(&self.rt, self.start)
    }

    /// Looks when a machine is due next, and notes it; where it has no time-out or is not there any more, it is forgotten.
    /// Of a machine that a pool serves behind this gate, only a start needs it, where a time-out may be set by it.
    ///
    /// Refused with `NoMemory` where memory is wanted and there is none, or the machine has as many owners as can be
    /// counted. Then the call is to be made again, or the machine's time-outs may not come before its next turn.
    ///
    /// Manual: `timeout_action()`; ours: docs/DECISIONS.md, Tickers.
    pub fn watch(&self, id: MachineId) -> Result<(), Refusal>
        ensures refusals { IfErr result (λ refusal. refusal ≡ NoMemory) }
    {
        for _ in self.rt.forever() {
            match self.next_due(id)? {
                Some(moment) => return self.note(id, moment),
                None => {
                    // What was forgotten may have been noted of a turn that was made meanwhile: then it is noted again.
                    if !self.alarms.lock(&self.rt).forget(id) {
                        return Ok(());
                    }
                }
            }
        }
        unreachable!()
    }

    /// The moment at which a machine is due next. `None`: it has no time-out, or is not there any more.
    fn next_due(&self, id: MachineId) -> Result<Option<u64>, Refusal>
        ensures read { IfOk result (λ due. (due ≡ None) ⊎ IsReadAt (callbacks_of M.Module M.State.eq) (λ machine. next_due_of machine) id due) }

        ensures refusals { IfErr result (λ refusal. refusal ≡ NoMemory) }
    {
        match self.hall.machine(id) {
            Ok(machine) => Ok(machine.next_due(&self.rt)),
            Err(Refusal::NoSuchMachine) => Ok(None),
            Err(refusal) => Err(refusal),
        }
    }

    /// A machine is to be visited at a moment, or as early as it was noted before. Who sleeps for longer is woken.
    fn note(&self, id: MachineId, moment: u64) -> Result<(), Refusal>
        ensures refusals { IfErr result (λ refusal. refusal ≡ NoMemory) }
    {
        if self.alarms.lock(&self.rt).note(id, moment)? {
            self.changed.notify_one();
        }
        Ok(())
    }

    /// Watches a machine. Where there is no memory, it is tried again until the ticker is to end.
    fn watch_until_done(&self, id: MachineId) {
        for _ in self.rt.forever() {
            if self.watch(id).is_ok() || self.gives_up() {
                return;
            }
        }
        unreachable!()
    }

    /// Notes a visit. Where there is no memory, it is tried again until the ticker is to end.
    fn note_until_done(&self, id: MachineId, moment: u64) {
        for _ in self.rt.forever() {
            if self.note(id, moment).is_ok() || self.gives_up() {
                return;
            }
        }
        unreachable!()
    }

    /// Something found no memory: waits a little. `true`: the ticker is to end, so it is not to be tried again.
    fn gives_up(&self) -> bool {
        if self.alarms.lock(&self.rt).is_ending() {
            return true;
        }
        thread::sleep(&self.rt, Duration::from_millis(RETRY));
        false
    }

    /// The next machine that is to be visited, and the moment. Until there is one, it sleeps. `None`: the ticker is to end.
    fn wait(&self) -> Option<(MachineId, u64)>
        ensures below { IfSome result (λ visit. visit.1 < 2 ^ 63) }
    {
        let mut alarms = self.alarms.lock(&self.rt);
        for _ in self.rt.forever() {
            let now = self.now();
            let next = alarms.next(now);
            alarms = match next {
                Next::End => return None,
                Next::Visit(id) => return Some((id, now)),
                Next::Doze(time) => {
                    let time = Duration::from_millis(time);
                    self.changed.wait_timeout(&self.rt, alarms, time).0
                }
                Next::Sleep => self.changed.wait(&self.rt, alarms),
            };
        }
        unreachable!()
    }

    /// Visits a machine that was noted as due by a moment: asks it, and ticks it where it is due by then.
    fn visit(&self, id: MachineId, now: u64) -> Visit
        requires below { now < 2 ^ 63 }
        ensures due { IsTrue result.is_ticked → WasDueBy (callbacks_of M.Module M.State.eq) id now }
        ensures ticked { IsTrue result.is_ticked → IsTicked (callbacks_of M.Module M.State.eq) id now result.wake }

        ensures unticked { result.is_ticked ≡ false → IsLater now result }
    {
        match self.hall.machine(id) {
            Ok(machine) => visited(&self.rt, &*machine, now),
            Err(Refusal::NoSuchMachine) => unticked(None),
            Err(_) => unticked(Some(now + RETRY)),
        }
    }

    /// Schedules a token. Where it is refused, it is tried again until the ticker is to end. The token that is left, if it
    /// could not be scheduled.
    fn schedule<W: Wake>(&self, wake: &W, token: Option<Token>) -> Option<Token>
        ensures returned { IfSome result (λ left. token ≡ Some left) }
    {
        for _ in self.rt.forever() {
            let left = schedule(&self.rt, wake, token);
            if left.is_none() || self.gives_up() {
                return left;
            }
        }
        unreachable!()
    }
}

/// A machine was not ticked, and is to be visited at this moment.
fn unticked(next: Option<u64>) -> Visit
    ensures { result ≡ record { is_ticked = false; wake = None; next = next } }
{
    Visit {
        is_ticked: false,
        wake: None,
        next,
    }
}

/// Asks a machine when it is due, and ticks it where that is by a moment; and asks it again then.
fn visited<M: Module, R: Wait>(rt: &R, machine: &Machine<M>, now: u64) -> Visit
    requires below { now < 2 ^ 63 }
    ensures due { IsTrue result.is_ticked → WasDueBy (callbacks_of M.Module M.State.eq) (id_of machine.now) now }
    ensures ticked { IsTrue result.is_ticked → IsTicked (callbacks_of M.Module M.State.eq) (id_of machine.now) now result.wake }

    ensures unticked { result.is_ticked ≡ false → IsLater now result }
{
    match machine.next_due(rt) {
        Some(due) if due <= now => {}
        next => return unticked(next),
    }
    match machine.tick(rt, now) {
        Ok(ticked) => Visit {
            is_ticked: true,
            wake: ticked.wake,
            next: machine.next_due(rt),
        },
        Err(Refusal::NoMemory) => unticked(Some(now + RETRY)),
        Err(_) => unticked(None),
    }
}

/// It is told of each turn that workers make, and gives them the moment.
///
/// Ours: docs/DECISIONS.md, Tickers.
impl<M: Module, R: Wait + Clock + Drop> Gate for Ticker<M, R> {
    ghost moment = { λ now. now < 2 ^ 63 };

    fn now(&self) -> u64 {
        Ticker::now(self)
    }

    fn before(&self, _worker: usize, _token: Token) {}

    fn after(&self, _worker: usize, token: Token) {
        self.watch_until_done(token.machine);
    }
}

/// Its thread sleeps until a machine is due.
///
/// Ours: docs/DECISIONS.md, Tickers.
impl<M: Module, R: Wait + Clock + Drop> Ticks for Ticker<M, R> {
    fn run<W: Wake>(&self, wake: &W) -> TickerEnd {
        let mut ticks = 0u64;
        let mut left = None;
        for _ in self.rt.forever() {
            let Some((id, now)) = self.wait() else {
                break;
            };
            let visit = self.visit(id, now);
            ticks = ticks.saturating_add(u64::from(visit.is_ticked));
            left = self.schedule(wake, visit.wake);
            if let Some(next) = visit.next {
                self.note_until_done(id, next);
            }
            if left.is_some() {
                break;
            }
        }
        TickerEnd { ticks, left }
    }

    fn end(&self) {
        self.alarms.lock(&self.rt).end();
        self.changed.notify_all();
    }
}
