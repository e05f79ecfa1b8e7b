//! What the threads of a pool share.
ghost use Rattle.std.specs.Prelude.{◌≡◌, IfErr};

use crate::injector::Injector;
use crate::sleeper::Sleeper;
use st_events::Token;
use st_runq::PutRefused;
use st_worker::Source;
use std::sync::atomic::{AtomicBool, AtomicU64, AtomicUsize, Ordering};
use std::sync::{Condvar, Mutex, Wait};

/// The way in, where the workers sleep, how many of them search, what is left for these, and whether the pool closes.
#[derive(Drop)]
pub struct PoolState {
    injector: Mutex<Injector>,
    drained: Condvar,
    sleepers: Vec<Sleeper>,
    searching: AtomicUsize,
    // How many tokens are on the shared run queue, or about to be.
    shared: AtomicU64,
    closing: AtomicBool,
}

impl PoolState {
    /// A pool that is not closing, with a sleeper for each worker, in the order of their numbers.
    pub fn new(injector: Injector, sleepers: Vec<Sleeper>) -> PoolState {
        PoolState {
            injector: Mutex::new(injector),
            drained: Condvar::new(),
            sleepers,
            searching: AtomicUsize::new(0),
            shared: AtomicU64::new(0),
            closing: AtomicBool::new(false),
        }
    }

    /// Puts a token on the shared run queue, and wakes a worker that sleeps. A refused token comes back.
    pub fn schedule<R: Wait>(&self, rt: &R, token: Token) -> Result<(), PutRefused>
        ensures returned { IfErr result (λ e. e.0 ≡ token) }
    {
        // The count before the put: who takes the token counts it off.
        self.shared.fetch_add(1, Ordering::SeqCst);
        if let Err(refused) = self.injector.lock(rt).put(rt, token) {
            self.shared.fetch_sub(1, Ordering::SeqCst);
            return Err(refused);
        }
        self.wake_one();
        Ok(())
    }

    /// Wakes the first worker whose announcement stands that it sleeps. Where a worker searches, nobody is woken: it has yet
    /// to look, and to see to it that another does.
    pub fn wake_one(&self) {
        if self.searching.load(Ordering::SeqCst) > 0 {
            return;
        }
        for sleeper in &self.sleepers {
            if sleeper.wake() {
                return;
            }
        }
    }

    /// A worker searches from now on. `false`: it does not, since half of the workers do.
    pub fn begin_search(&self) -> bool {
        let searching = self.searching.load(Ordering::SeqCst);
        if searching.saturating_mul(2) >= self.sleepers.len() {
            return false;
        }
        self.searching.fetch_add(1, Ordering::SeqCst);
        true
    }

    /// A worker searches no longer, and sleeps.
    pub fn end_search(&self) {
        self.searching.fetch_sub(1, Ordering::SeqCst);
    }

    /// A worker searches no longer, since it found a token. The last one sees to it that more are looked for.
    pub fn end_search_with_token(&self) {
        if self.searching.fetch_sub(1, Ordering::SeqCst) == 1 {
            self.wake_for_more();
        }
    }

    /// A worker that searched has found a token. Where there are more, another is woken: for what came while it searched
    /// nobody was.
    pub fn wake_for_more(&self) {
        if self.shared.load(Ordering::SeqCst) > 0 || self.is_any_left() {
            self.wake_one();
        }
    }

    /// A worker has looked for a token: `source` is where it found one. Where it has `requeued` a token since its last
    /// look, and that is not the one which it found, that token is left to the others, and one of them is woken.
    pub fn note(&self, number: usize, requeued: bool, source: Option<Source>) {
        match source {
            Some(Source::Own) => {
                if !requeued {
                    self.take_from(number);
                }
                return;
            }
            Some(Source::Other(place)) => self.take_from_other(number, place),
            Some(Source::Shared) => {
                self.shared.fetch_sub(1, Ordering::SeqCst);
            }
            _ => {}
        }
        if requeued {
            self.leave_to_others(number);
        }
    }

    /// The worker leaves a token on its own run queue, and one that sleeps is woken.
    pub fn leave_to_others(&self, number: usize) {
        if let Some(sleeper) = self.sleepers.get(number) {
            sleeper.leave_one();
            self.wake_one();
        }
    }

    /// A token that was left on the worker's run queue was taken.
    fn take_from(&self, number: usize) {
        if let Some(sleeper) = self.sleepers.get(number) {
            sleeper.take_one();
        }
    }

    /// The worker's thief of this place has taken a token: the first robs the worker of the next number.
    fn take_from_other(&self, number: usize, place: usize) {
        let workers = self.sleepers.len();
        if workers > 0 {
            self.take_from(number.wrapping_add(1).wrapping_add(place) % workers);
        }
    }

    /// Whether any worker leaves a token on its run queue while it serves another.
    pub fn is_any_left(&self) -> bool {
        for sleeper in &self.sleepers {
            if sleeper.is_any_left() {
                return true;
            }
        }
        false
    }

    /// Counts a token that a delivery woke as scheduled. `false`: there are as many as can be counted.
    pub fn count_woken<R: Wait>(&self, rt: &R) -> bool {
        self.injector.lock(rt).count_woken()
    }

    /// A token came to rest.
    pub fn rest<R: Wait>(&self, rt: &R) {
        let mut injector = self.injector.lock(rt);
        if injector.rest() {
            self.drained.notify_all();
        }
    }

    /// So many tokens came to rest.
    pub fn rest_each<R: Wait>(&self, rt: &R, tokens: u32) {
        for _ in 0..tokens {
            self.rest(rt);
        }
    }

    /// Waits until each token that was scheduled or woken has come to rest.
    pub fn drain<R: Wait>(&self, rt: &R) {
        let injector = self.drained.wait_while(
            rt,
            self.injector.lock(rt),
            |injector| !injector.is_drained(),
        );
        drop(injector);
    }

    /// From now on no token comes in, and each worker stops after the turn that it is in.
    pub fn close<R: Wait>(&self, rt: &R) {
        self.injector.lock(rt).close();
        // The mark before the waking: who sleeps after it does not sleep.
        self.closing.store(true, Ordering::SeqCst);
        for sleeper in &self.sleepers {
            sleeper.wake_anyway();
        }
    }

    /// Whether the workers are to stop.
    pub fn is_closing(&self) -> bool {
        self.closing.load(Ordering::SeqCst)
    }

    /// Where the worker of this number sleeps.
    pub fn sleeper(&self, number: usize) -> Option<&Sleeper> {
        self.sleepers.get(number)
    }
}
