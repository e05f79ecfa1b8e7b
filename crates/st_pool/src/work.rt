//! What a worker's thread does.
ghost use Rattle.std.specs.Prelude.{◌≡◌, ℕ, min, ◌⊎◌, true, false, None, IfSome};
ghost use Rattle.st_runq.specs.Ends.{put_of};
ghost use Rattle.st_worker.specs.Round.{Holds, FindsNone, HoldsWhatCarries, GivesWoken, StaysSame, served_at};
ghost use Rattle.st_pool.specs.Thread.{MakesRounds, Concludes};

use crate::Runtime;
use crate::pool_state::PoolState;
use crate::search::Search;
use crossbeam_utils::sync::Parker;
use st_worker::{Gate, Machines, Served, Worker};
use std::thread;

/// A worker whose thread has ended, and how many turns it made. Where it carries a message, it has a token.
#[derive(Drop)]
pub struct EndedWorker<C> {
    pub worker: Worker<C>,
    pub turns: u64,
    ghost carrying: { HoldsWhatCarries worker },
}

/// Makes rounds until the pool closes, and sleeps where there is nothing to serve.
///
/// What a delivery woke is counted and put on the worker's run queue before the token that was served may go on: so who
/// waits until all rest does not miss it.
pub fn work<R: Runtime, M: Machines, G: Gate>(
    rt: &R,
    mut worker: Worker<M::Content>,
    parker: Parker,
    state: &PoolState,
    machines: &M,
    gate: &G,
) -> EndedWorker<M::Content>
    requires woken { worker.transit.woken ≡ None }
    requires carrying { HoldsWhatCarries worker }
    ensures rounds { (n : ℕ) × (result.turns ≡ min n u64.MAX) × MakesRounds (served_at G.moment M.served) worker n result.worker }
{
    let mut turns = 0u64;
    let mut requeued = false;
    let mut search = Search::new();
    for _ in rt.forever() {
        if state.is_closing() {
            break;
        }
        if !acquire(rt, &mut worker, state, requeued) {
            requeued = false;
            pause(rt, &mut worker, &parker, state, &mut search);
            continue;
        }
        search.end(state);
        let Some(served) = worker.serve_next(rt, machines, gate) else {
            continue;
        };
        turns = turns.saturating_add(1);
        let Some(is_requeued) = conclude(rt, &mut worker, state, served) else {
            break;
        };
        requeued = is_requeued;
    }
    EndedWorker { worker, turns }
}

/// What follows a turn: what a delivery woke is put on the worker's run queue, and then the token that was served goes on.
/// Answers whether that was put there too. `None`: the pool closed before the woken one could be put.
fn conclude<R: Runtime, C>(
    rt: &R,
    worker: &mut Worker<C>,
    state: &PoolState,
    served: Served,
) -> Option<bool>
    requires carrying { HoldsWhatCarries worker.old }
    ensures puts { Concludes worker.old worker.new }
    ensures carrying { HoldsWhatCarries worker.new }
    ensures woken { IfSome result (λ _. worker.new.transit.woken ≡ None) }
{
    let is_given = give_woken(rt, worker, state);
    // The count of what was woken before this one: whoever waits until all rest does not miss it.
    if served == Served::Rested {
        state.rest(rt);
    }
    if !is_given {
        return None;
    }
    Some(served == Served::Requeued || worker.put_back())
}

/// Puts the token that a delivery woke, if there is one, on the worker's run queue, and leaves it to the others. Where that
/// is refused, it is put again until the pool closes. `false`: that came first, and the token is where it was.
fn give_woken<R: Runtime, C>(rt: &R, worker: &mut Worker<C>, state: &PoolState) -> bool
    ensures given { GivesWoken worker.old worker.new ⊎ StaysSame worker.old worker.new }
    ensures woken { result ≡ true → worker.new.transit.woken ≡ None }
{
    if worker.transit.woken.is_none() {
        return true;
    }
    let mut is_counted = false;
    for _ in rt.forever() {
        // The count before the put: once it stands there, another may serve it and come to rest.
        is_counted = is_counted || state.count_woken(rt);
        if is_counted && worker.give_woken() {
            state.leave_to_others(worker.number);
            return true;
        }
        if state.is_closing() {
            break;
        }
        thread::yield_now();
    }
    false
}

/// Takes a token, where the worker has none, and tells the others what that leaves them. `false`: there was none.
fn acquire<R: Runtime, C>(rt: &R, worker: &mut Worker<C>, state: &PoolState, requeued: bool) -> bool
    ensures put { put_of worker.new.lane ≡ put_of worker.old.lane }
    ensures found { result ≡ true → Holds worker.old worker.new }

    ensures none { result ≡ false → FindsNone worker.old worker.new }
{
    let source = worker.pick_up(rt);
    state.note(worker.number, requeued, source);
    source.is_some()
}

/// A worker that found nothing is to look again, or else it sleeps.
fn pause<R: Runtime, C>(
    rt: &R,
    worker: &mut Worker<C>,
    parker: &Parker,
    state: &PoolState,
    search: &mut Search,
)
    ensures { (Holds worker.old worker.new × (put_of worker.new.lane ≡ put_of worker.old.lane)) ⊎ FindsNone worker.old worker.new ⊎ (worker.new ≡ worker.old) }
{
    if !search.goes_on(state) && sleep(rt, worker, parker, state) {
        search.begin(state);
    }
}

/// Announces that the worker is about to sleep, looks once more, and sleeps if there is still nothing. Answers whether it
/// is to look again.
fn sleep<R: Runtime, C>(rt: &R, worker: &mut Worker<C>, parker: &Parker, state: &PoolState) -> bool
    ensures { (Holds worker.old worker.new × (put_of worker.new.lane ≡ put_of worker.old.lane)) ⊎ FindsNone worker.old worker.new ⊎ (worker.new ≡ worker.old) }
{
    let Some(sleeper) = state.sleeper(worker.number) else {
        return false;
    };
    sleeper.announce();
    if acquire(rt, worker, state, false) {
        // Whoever took the announcement back meant it for another token than the one found.
        if !sleeper.recall() {
            state.wake_one();
        }
        state.wake_for_more();
        return false;
    }
    if state.is_any_left() {
        // A steal may have missed what is left there, since another was quicker.
        sleeper.recall();
        thread::yield_now();
        return true;
    }
    parker.park(rt);
    sleeper.recall();
    true
}
