//! A belfry with threads: of a pool that serves its bells, or of its ticker alone. Each call of these stands here, once.
use super::belfry::Belfry;
use super::bell::{Bell, Order};
use super::chimed::{first_token, plays};
use super::clocks::Clocks;
use super::host::{Host, got, holds, same};
use super::patience::{Threads, is_in_time, now};
use super::rounds::ring_in_turn;
use super::shelf::Shelf;
use super::step::Step;
use st_ticker::{TickedPool, TickedPoolEnd, Ticker, TickerEnd, TickerThread};
use std::io::Print;
use std::process::Abort;

/// A pool of workers for bells, with a ticker.
type BellPool<R> = TickedPool<R, Order, Ticker<Bell, R>>;

/// The thread of a ticker of bells.
type BellThread<R> = TickerThread<R, Ticker<Bell, R>>;

/// A belfry, the shelf for tokens that nobody serves, and a pool or the thread of the ticker, once it was started.
#[derive(Drop)]
struct Tower<R: Threads> {
    threads: R,
    // The fields are let go in this order.
    thread: Option<Box<BellThread<R>>>,
    pool: Option<Box<BellPool<R>>>,
    shelf: Shelf,
    belfry: Belfry<R>,
}

/// A belfry with no bell, and no thread.
fn opens<R: Threads>(rt: &Host<impl Abort + AllocGlobal>, threads: R) -> Box<Tower<R>> {
    let clocks = Clocks {
        own: threads,
        of_hall: threads,
        of_ticker: threads,
        spare: threads,
    };
    let belfry = Belfry::new(rt, rt.alloc(), clocks);
    let tower = Tower {
        threads,
        thread: None,
        pool: None,
        shelf: Shelf::new(rt.alloc()).expect(rt, "a shelf"),
        belfry,
    };
    rt.boxed(rt.alloc(), tower)
}

impl<R: Threads> Tower<R> {
    /// Starts a pool of two workers.
    fn opens_pool(&mut self, rt: &Host<impl Abort + AllocGlobal>) {
        let pool = TickedPool::start(
            self.threads,
            rt.alloc(),
            2,
            &self.belfry.hall,
            &self.belfry.ticker,
        );
        let pool = rt.boxed(rt.alloc(), pool.expect(rt, "a pool"));
        drop(self.pool.replace(pool));
    }

    /// Starts the thread of the ticker. Its tokens the shelf refuses so often, and then takes.
    fn starts_thread(&mut self, rt: &Host<impl Abort + AllocGlobal>, refusals: u64) {
        self.shelf.refuses(refusals);
        let theirs = self.shelf.another().expect(rt, "an owner");
        let thread = TickerThread::start(self.threads, &self.belfry.ticker, theirs);
        let thread = rt.boxed(rt.alloc(), thread.expect(rt, "a thread"));
        drop(self.thread.replace(thread));
    }

    /// The first bells, who are so many, tell each other when to ring, and ring.
    fn ring_in_turn(&self, rt: &impl Abort, count: usize) {
        let pool = self.pool.as_ref().expect(rt, "a pool").pool();
        let scheduler = pool.scheduler().expect(rt, "a scheduler");
        ring_in_turn(rt, self.threads, &self.belfry, &scheduler, count);
        pool.drain();
        drop(scheduler);
    }

    /// Does a step, and looks at what comes of it.
    fn does(&mut self, rt: &Host<impl Abort + AllocGlobal>, step: &Step) {
        match step {
            Step::Plays(rows) => plays(rt, self.threads, &self.belfry, &self.shelf, rows),
            Step::OpensPool => self.opens_pool(rt),
            Step::RingInTurn(count) => self.ring_in_turn(rt, *count),
            Step::ClosesPool(ticks) => {
                let pool = self.pool.as_mut().expect(rt, "a pool");
                is_closed(rt, got(rt, "there is memory", pool.close()), *ticks);
            }
            Step::LetsPoolGo => {
                let start = now(rt, &self.threads);
                drop(self.pool.take());
                is_in_time(rt, &self.threads, start);
            }
            Step::StartsThread(refusals) => self.starts_thread(rt, *refusals),
            Step::EndsThread(ticks, left) => {
                let thread = self.thread.as_mut().expect(rt, "a thread");
                is_ended(rt, thread.end(), *ticks, *left);
            }
        }
    }
}

/// A pool has ended: its ticker made so many ticks, and no token is left.
fn is_closed(rt: &impl Abort, end: TickedPoolEnd<Order>, ticks: u64) {
    same(rt, "ticks in all", &end.ticks, &ticks);
    let none = end.left == None && end.pool.left.is_empty();
    holds(rt, "no token is left", none);
    drop(end);
}

/// The thread of a ticker has ended: it made so many ticks, and has left the first token of the bell of a place, or none.
fn is_ended(rt: &impl Abort, end: TickerEnd, (least, greatest): (u64, u64), left: Option<usize>) {
    let is_within = least <= end.ticks && end.ticks <= greatest;
    holds(rt, "so many ticks", is_within);
    let left = match left {
        Some(place) => Some(first_token(place)),
        None => None,
    };
    same(rt, "what is left", &end.left, &left);
}

/// A whole test: steps are done at a belfry.
pub fn tolls<R: Threads + Abort + AllocGlobal + Print>(rt: R, steps: &[Step]) {
    let threads = rt;
    let rt = Host::with_memory(rt);
    goes_by(&rt, threads, steps);
    rt.end_with_memory();
}

/// Does steps at a belfry.
fn goes_by<R: Threads>(rt: &Host<impl Abort + AllocGlobal>, threads: R, steps: &[Step]) {
    let mut tower = opens(rt, threads);
    for (place, step) in steps.iter().enumerate() {
        rt.begins_act(place);
        tower.does(rt, step);
    }
    drop(tower);
}
