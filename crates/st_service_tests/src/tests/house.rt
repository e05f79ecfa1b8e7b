//! A service of clerks. A call of a service at one module, or with one observer, is proved anew in each function that makes
//! it, and takes longer than all else there: so each stands here, once.
ghost use Rattle.std.specs.Prelude.{◌≤◌};

use super::act::Act;
use super::clerk::Clerk;
use super::hatch::Hatch;
use super::hiring::Hiring;
use super::host::{Host, got, same};
use super::ids::{NOBODY, id_at};
use super::left::is_left;
use super::opening::Opening;
use super::part::Part;
use super::patience::{Threads, now, waits_a_little};
use super::played::plays;
use super::row::Row;
use super::tally::{Counting, Tally};
use crate::Order;
use st_service::{
    MachineId, Options, Refusal, Refused, Service, ServicePort, ShutDown, Spawned, Unspawned,
};
use std::alloc::Global;
use std::io::Print;
use std::process::Abort;
use std::sync::Arc;

/// A service of clerks, and their hatches.
#[derive(Drop)]
pub struct House<R: Threads> {
    threads: R,
    // They stand before the service, for the fields are let go in this order.
    hatches: Vec<Box<Hatch<R>>>,
    service: Service<Clerk, R, Counting>,
}

/// A service with so many workers, and an observer that counts into a tally, if one is given. Where there is no memory, it is
/// started again.
fn opens<R: Threads>(
    rt: &Host<impl Abort + AllocGlobal>,
    threads: R,
    workers: usize,
    options: Options,
    tally: &Option<Arc<Tally, Global>>,
) -> Box<House<R>>
    requires { (1 ≤ workers) × (workers ≤ 16) }
{
    for _ in 0..2 {
        let observer = Counting::of(rt, tally);
        match Service::start(threads, rt.alloc(), workers, options, observer) {
            Ok(service) => {
                let house = House {
                    threads,
                    hatches: Vec::new(rt.alloc()),
                    service,
                };
                return rt.boxed(rt.alloc(), house);
            }
            Err(_) => rt.retry(),
        }
    }
    panic!(rt; "one allocation alone is refused")
}

impl<R: Threads> House<R> {
    /// Starts a clerk. One who runs has a hatch from now on.
    fn try_hire(
        &mut self,
        rt: &Host<impl Abort + AllocGlobal>,
        name: Option<&str>,
        clerk: Clerk,
    ) -> Hiring {
        match self.service.spawn(name, clerk, &()) {
            Ok(Spawned::Running(id, port)) => {
                self.welcomes(rt, id, port);
                Hiring::Runs(id)
            }
            Ok(Spawned::Ignored) => Hiring::Nobody,
            Ok(Spawned::Stopped(_reason)) => Hiring::Nobody,
            Err(Unspawned::Closed(_clerk)) => Hiring::Closed,
            Err(Unspawned::Refused(Refused { refusal, .. })) => Hiring::Refused(refusal),
        }
    }

    /// Opens the hatch of a clerk who was hired. Where there was no memory for his port, it is opened now.
    fn welcomes(
        &mut self,
        rt: &Host<impl Abort + AllocGlobal>,
        id: MachineId,
        port: Option<ServicePort<Clerk, R, Counting>>,
    ) {
        let port = match port {
            Some(port) => port,
            None => {
                rt.retry();
                got(rt, "a port", self.service.port(id))
            }
        };
        let hatch = Hatch {
            threads: self.threads,
            port,
            asked: None,
        };
        let hatch = rt.boxed(rt.alloc(), hatch);
        rt.puts(&mut self.hatches, hatch);
    }

    /// Starts a clerk. Where there is no memory, nobody was hired, and he is hired again.
    fn hires(
        &mut self,
        rt: &Host<impl Abort + AllocGlobal>,
        name: Option<&str>,
        clerk: Clerk,
    ) -> Hiring {
        let count = self.count(rt);
        let hiring = self.try_hire(rt, name, clerk);
        if hiring != Hiring::Refused(Refusal::NoMemory) {
            return hiring;
        }
        same(rt, "nobody was hired", &self.count(rt), &count);
        rt.retry();
        self.try_hire(rt, name, clerk)
    }

    /// Hires so many clerks, and plays rows at the hatch of each before the next one is hired.
    fn hires_each(
        &mut self,
        rt: &Host<impl Abort + AllocGlobal>,
        count: usize,
        rows: &'static [Row],
    ) {
        for _ in 0..count {
            let place = self.hatches.len();
            let hiring = self.hires(rt, None, Clerk { partner: NOBODY });
            same(rt, "he is hired", &hiring, &Hiring::Runs(id_at(place)));
            plays(rt, self.threads, &mut self.hatches, &Part::At(place, rows));
        }
    }

    /// How many clerks there are.
    fn count(&self, rt: &impl Abort) -> usize {
        let count = self.service.len();
        let is_empty = self.service.is_empty();
        same(rt, "there is none", &is_empty, &(count == 0));
        count
    }

    /// Waits until no event waits at a clerk. That it is within some seconds is tested.
    fn awaits_served(&self, rt: &impl Abort, id: MachineId) {
        let start = now(rt, &self.threads);
        for _ in self.threads.forever() {
            let machine = got(rt, "he is there", self.service.machine(id));
            let waiting = machine.waiting(&self.threads);
            drop(machine);
            if waiting == 0 {
                break;
            }
            waits_a_little(rt, &self.threads, start);
        }
    }

    /// Ends the service, and stops each clerk for a reason. Where there is no memory, it is shut down again.
    fn shuts_down(&mut self, rt: &Host<impl Abort>, reason: u32) -> ShutDown<Order> {
        for _ in 0..2 {
            match self.service.shut_down(reason) {
                Ok(end) => return end,
                Err(_) => rt.retry(),
            }
        }
        panic!(rt; "one allocation alone is refused")
    }

    /// Does an act, and looks at what comes of it.
    fn does(&mut self, rt: &Host<impl Abort + AllocGlobal>, act: &Act) {
        match act {
            Act::Hires(name, partner, hiring) => {
                let found = self.hires(rt, *name, Clerk { partner: *partner });
                same(rt, "who is hired", &found, hiring);
            }
            Act::HiresEach(count, rows) => self.hires_each(rt, *count, rows),
            Act::Plays(part) => plays(rt, self.threads, &mut self.hatches, part),
            Act::AwaitsServed(id) => self.awaits_served(rt, *id),
            Act::IsNamed(name, id) => same(rt, "by name", &self.service.whereis(name), &Ok(*id)),
            Act::Counts(count) => same(rt, "so many clerks", &self.count(rt), count),
            Act::ShutsDown(reason, left, message) => {
                is_left(rt, self.shuts_down(rt, *reason), left, *message);
            }
        }
    }
}

/// Opens a house with so many workers, and does acts in it.
pub fn goes_by<R: Threads>(
    rt: &Host<impl Abort + AllocGlobal>,
    threads: R,
    workers: usize,
    opening: &Opening,
    acts: &[Act],
)
    requires { (1 ≤ workers) × (workers ≤ 16) }
{
    let tally = opening.tally(rt, rt.alloc());
    let mut house = opens(rt, threads, workers, opening.options, &tally);
    for (place, act) in acts.iter().enumerate() {
        rt.begins_act(place);
        house.does(rt, act);
    }
    opening.was_told(rt, &tally);
    drop(house);
    drop(tally);
}

/// A whole test: a house with two workers opens, and acts are done in it.
pub fn serves<R: Threads + Abort + AllocGlobal + Print>(rt: R, opening: &Opening, acts: &[Act]) {
    let threads = rt;
    let rt = Host::with_memory(rt);
    goes_by(&rt, threads, 2, opening, acts);
    rt.end_with_memory();
}
