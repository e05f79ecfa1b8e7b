//! What each worker has of the run queues, made for all of them.
ghost use Rattle.std.specs.Prelude.{◌≡◌, ◌<◌, [], ◌++◌, All, IfOk, OnOk, map, length};
ghost use Rattle.st_runq.specs.Ends.{robbed_of, stolen_of};
ghost use Rattle.st_runq.specs.Seats.{lanes_of, others_of, IsReady, AreThieves, EachRobsOthers};

use crate::{Inlet, Lane, Shared, Thief};
use std::alloc::{AllocError, Global};

/// What one worker has of the run queues.
#[derive(Drop)]
pub struct Seats {
    /// Its own end of its own run queue.
    pub lane: Lane,
    /// A thief of each other worker's run queue: first of those after its own number, and then from 0 on.
    pub thieves: Vec<Thief>,
    /// A taker of the shared run queue.
    pub shared: Shared,
}

impl Seats {
    /// Makes for so many workers, numbered from 0, what each has of the run queues. All are empty and nothing was taken.
    ///
    /// Where there is no memory for it, nothing is made.
    pub fn for_workers(alloc: Global, inlet: &Inlet, count: usize) -> Result<Vec<Seats>, AllocError>
        ensures ready { IfOk result (λ all. (length all.items ≡ count) × All (IsReady inlet.now) all.items) }
        ensures others { IfOk result (λ all. EachRobsOthers count all.items) }
    {
        let mut all = without_thieves(alloc, inlet, count)?;
        for own in 0..count {
            let thieves = thieves_of_others(alloc, all.as_slice(), own)?;
            all[own].thieves = thieves;
        }
        Ok(all)
    }
}

/// What so many workers have, but for the thieves.
fn without_thieves(alloc: Global, inlet: &Inlet, count: usize) -> Result<Vec<Seats>, AllocError>
    ensures { IfOk result (λ all. (length all.items ≡ count) × All (IsReady inlet.now) all.items) }
{
    let mut all = Vec::new(alloc);
    for _number in 0..count {
        let lane = Lane::new(alloc)?;
        let shared = inlet.taker()?;
        let seats = Seats {
            lane,
            thieves: Vec::new(alloc),
            shared,
        };
        all.push(seats)?;
    }
    Ok(all)
}

/// A thief of each run queue but that of one worker: first of those after it, and then from 0 on.
fn thieves_of_others(alloc: Global, all: &[Seats], own: usize) -> Result<Vec<Thief>, AllocError>
    requires { own < length all.now }
    ensures { IfOk result (λ thieves. AreThieves (others_of own (lanes_of all.now)) thieves.items) }
{
    let mut thieves = Vec::new(alloc);
    add_thieves(&mut thieves, &all[own + 1..])?;
    add_thieves(&mut thieves, &all[..own])?;
    Ok(thieves)
}

/// Puts a thief of the run queue of each of these workers behind the others.
fn add_thieves(thieves: &mut Vec<Thief>, of: &[Seats]) -> Result<(), AllocError>
    requires { All (λ thief. stolen_of thief ≡ []) thieves.old.items }
    ensures { OnOk result (AreThieves (map robbed_of thieves.old.items ++ lanes_of of.now) thieves.new.items) }
{
    for seats in of {
        let thief = seats.lane.thief()?;
        thieves.push(thief)?;
    }
    Ok(())
}
