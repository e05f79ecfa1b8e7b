//! A service of couriers, which serves them in slices. Each call of it stands here, once.
ghost use Rattle.std.specs.Prelude.{◌≤◌};

use super::carried::plays;
use super::courier::Courier;
use super::desk::Desk;
use super::errand::Errand;
use super::host::{Host, got};
use super::ids::{NOBODY, id_at};
use super::left::is_left;
use super::patience::Threads;
use st_service::{Journals, MachineId, Nobody, Options, Service, Spawned};
use std::io::Print;
use std::process::Abort;

/// A service of couriers, and their desks.
#[derive(Drop)]
pub struct Office<R: Threads> {
    threads: R,
    // They stand before the service, for the fields are let go in this order.
    desks: Vec<Box<Desk<R>>>,
    service: Service<Courier, R, Nobody>,
}

/// A service with so many workers.
fn opens<R: Threads>(
    rt: &Host<impl Abort + AllocGlobal>,
    threads: R,
    workers: usize,
    options: Options,
) -> Box<Office<R>>
    requires { (1 ≤ workers) × (workers ≤ 16) }
{
    let service = Service::start(threads, rt.alloc(), workers, options, Nobody);
    let office = Office {
        threads,
        desks: Vec::new(rt.alloc()),
        service: service.expect(rt, "a service"),
    };
    rt.boxed(rt.alloc(), office)
}

/// To whom the courier of a place sends among some, of whom the first sends to this one, or each to nobody.
fn next_of(first: Option<usize>, place: usize) -> MachineId {
    match first {
        Some(first) => id_at(first.saturating_add(place)),
        None => NOBODY,
    }
}

impl<R: Threads> Office<R> {
    /// Hires so many couriers, each of whom runs. The first sends to the one of a place, and each other to the one behind that of
    /// the one before; without a place, each sends to nobody.
    fn hires(&mut self, rt: &Host<impl Abort + AllocGlobal>, count: usize, first: Option<usize>) {
        for place in 0..count {
            let next = next_of(first, place);
            let spawned = self.service.spawn(None, Courier { next }, &());
            let port = match got(rt, "he is hired", spawned) {
                Spawned::Running(_id, port) => port,
                Spawned::Ignored => None,
                Spawned::Stopped(_reason) => None,
            };
            let desk = Desk {
                threads: self.threads,
                port: port.expect(rt, "his port"),
            };
            let desk = rt.boxed(rt.alloc(), desk);
            rt.puts(&mut self.desks, desk);
        }
    }

    /// Does an errand, and looks at what comes of it.
    fn does(&mut self, rt: &Host<impl Abort + AllocGlobal>, errand: &Errand) {
        match errand {
            Errand::Hires(count, first) => self.hires(rt, *count, *first),
            Errand::Plays(rows) => plays(rt, self.threads, &mut self.desks, rows),
            Errand::ShutsDown(left) => {
                let end = got(rt, "there is memory", self.service.shut_down(7));
                is_left(rt, end, left, None);
            }
        }
    }
}

/// Opens an office with so many workers, and does errands in it.
fn goes_by<R: Threads>(
    rt: &Host<impl Abort + AllocGlobal>,
    threads: R,
    workers: usize,
    options: Options,
    errands: &[Errand],
)
    requires { (1 ≤ workers) × (workers ≤ 16) }
{
    let mut office = opens(rt, threads, workers, options);
    for (place, errand) in errands.iter().enumerate() {
        rt.begins_act(place);
        office.does(rt, errand);
    }
    drop(office);
}

/// A whole test: an office opens with so many workers, whose couriers keep such journals, and errands are done in it. Shutting
/// it down makes so many turns.
pub fn carries<R: Threads + Abort + AllocGlobal + Print>(
    rt: R,
    workers: usize,
    journals: Journals,
    turns: u64,
    errands: &[Errand],
)
    requires { (1 ≤ workers) × (workers ≤ 16) }
{
    let threads = rt;
    let rt = Host::with_memory(rt);
    let options = Options {
        waiting: 1_000,
        journals,
        turns,
    };
    goes_by(&rt, threads, workers, options, errands);
    rt.end_with_memory();
}
