//! A bell, with the channel in front of it, and notes of what it does.
use super::bell::Bell;
use super::host::{Host, got, holds, same};
use super::notes::Notes;
use crate::Wish;
use actor::{Core, Entry, Event, Events, Inlet, MachineId, Served, Start, channel, serve};
use std::alloc::Global;
use std::process::Abort;
use std::rt::Clock;
use std::sync::atomic::AtomicU64;
use std::sync::{Arc, Wait};
use std::thread::Threads;
use std::time::Instant;

/// What the threads of these tests carry.
pub trait Carried: Wait + Clock + Threads + Copy + Send + Drop + 'static {}

impl<R: Wait + Clock + Threads + Copy + Send + Drop + 'static> Carried for R {}

/// The bell's id.
pub const ID: MachineId = MachineId { slot: 1, serial: 1 };

/// A bell, with the channel in front of it, and notes of what it does.
#[derive(Drop)]
pub struct Tower {
    pub bell: Core<Bell>,
    pub events: Events<Wish>,
    pub notes: Notes,
    pub start: Instant,
}

/// A bell with so many places before it, and where wishes are sent to it.
pub fn builds<R: Carried>(
    rt: &Host<impl Abort + AllocGlobal>,
    threads: R,
    limit: usize,
) -> (Inlet<Wish>, Box<Tower>) {
    let start = got(rt, "the clock is read", Instant::now(&threads));
    let bell = begins(rt, rt.alloc());
    let (inlet, events) = got(rt, "a channel", channel(rt.alloc(), limit));
    let hushed = got(rt, "a count", Arc::new(rt.alloc(), AtomicU64::new(0)));
    let tower = Tower {
        bell,
        events,
        notes: Notes::new(hushed),
        start,
    };
    (inlet, rt.boxed(rt.alloc(), tower))
}

/// A bell begins.
fn begins(rt: &impl Abort, alloc: Global) -> Core<Bell> {
    running(rt, got(rt, "a start", Core::start(alloc, Bell, ID, &(), 0)))
}

/// The bell that a start led to.
pub fn running(rt: &impl Abort, started: Start<Bell>) -> Core<Bell> {
    match started {
        Start::Running(bell, report) => {
            drop(report);
            bell
        }
        Start::Ignored => panic!(rt; "it is there"),
        Start::Stopped(_reason) => panic!(rt; "it runs"),
    }
}

/// A wish, as a cast.
pub fn cast(wish: Wish) -> Event<Wish> {
    Event::new(Entry::Cast, wish)
}

/// Sends a wish where there is a place for it.
pub fn tells(rt: &impl Abort, threads: impl Carried, inlet: &Inlet<Wish>, wish: Wish) {
    holds(
        rt,
        "there is a place",
        inlet.try_send(&threads, cast(wish)).is_ok(),
    );
}

impl Tower {
    /// The bell is served, until it ends or nobody sends any more.
    pub fn serves(&mut self, rt: &impl Abort, threads: impl Carried) -> Served {
        let Tower {
            bell,
            events,
            notes,
            start,
        } = self;
        got(
            rt,
            "it is served",
            serve(&threads, bell, events, start, notes),
        )
    }

    /// So much was told.
    pub fn told(&self, rt: &impl Abort, reports: u64, messages: u64) {
        same(rt, "reports", &self.notes.reports, &reports);
        same(rt, "messages", &self.notes.messages, &messages);
    }
}
