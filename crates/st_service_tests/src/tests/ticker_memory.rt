//! A time-out comes though an allocation is refused.
use super::belfry::Belfry;
use super::bell::Bell;
use super::bells::Bells;
use super::chimed::starts;
use super::clocks::Clocks;
use super::host::{Host, holds};
use super::ids::FIRST;
use super::timed::Timed;
use st_core::Time;
use st_ticker::{Ticker, TickerEnd, Ticks};
use st_wake::{Token, Wake};
use std::alloc::Global;
use std::process::Abort;
use std::rt::Clock;
use std::sync::{Arc, Wait};

/// Who ends a ticker with the first token that is scheduled.
#[derive(Drop)]
struct Ender<R: Wait + Clock + Abort + Drop> {
    ticker: Arc<Ticker<Bell, Timed<R>>>,
}

impl<R: Wait + Clock + Abort + Drop> Wake for Ender<R> {
    fn wake<W: Wait>(&self, _rt: &W, _token: Token) -> Result<(), Token> {
        self.ticker.end();
        Ok(())
    }
}

/// The clocks of a hall of bells, each of which may be read so many times.
fn clocks<R: Copy>(threads: R) -> Clocks<Timed<R>> {
    Clocks {
        own: Timed::new(threads),
        of_hall: Timed::new(threads),
        of_ticker: Timed::new(threads),
        spare: Timed::new(threads),
    }
}

/// A bell that is to ring soon is started, and ticked by its ticker, which ends with its token.
fn is_ticked<R: Wait + Clock + Abort + Copy + Drop>(
    rt: &Host<impl Abort>,
    threads: R,
    alloc: Global,
) {
    let belfry = Belfry::new(rt, alloc, clocks(threads));
    starts(rt, &belfry, 0, &(Time::After(2), Time::Infinity));
    let ender = Ender {
        ticker: Arc::try_clone(&belfry.ticker).expect(rt, "an owner takes no memory"),
    };
    let TickerEnd { ticks, left } = belfry.ticker.run(&ender);
    holds(rt, "one tick", ticks == 1 && left == None);
    holds(rt, "its time-out came", belfry.see(rt, FIRST).1);
    drop(ender);
    drop(belfry);
}

#[test]
fn a_time_out_comes_though_memory_is_refused(rt: HostRuntime) {
    let threads = rt;
    let rt = Host::new(rt);
    is_ticked(&rt, threads, rt.alloc());
    rt.end();
}
