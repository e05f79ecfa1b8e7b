//! What couriers are handed, and what comes to them.
use super::carrier::Carrier;
use super::courier::with;
use super::host::{Host, got, same};
use super::parcel::Parcel;
use super::patience::{Threads, now, waits_a_little};
use std::process::Abort;

/// Casts a number to the couriers from a place on, up to another one.
fn casts<C: Carrier>(
    rt: &impl Abort,
    desks: &mut Vec<Box<C>>,
    number: u32,
    (first, end): (usize, usize),
) {
    for (place, desk) in desks.iter_mut().enumerate() {
        if first <= place && place < end {
            got(rt, "it is cast", desk.cast(number));
        }
    }
}

/// Casts numbers, from the first to the last, one after another: each to the couriers from a place on, up to another one.
fn casts_each<C: Carrier>(
    rt: &impl Abort,
    desks: &mut Vec<Box<C>>,
    (first, last): (u32, u32),
    places: (usize, usize),
) {
    for number in first..=last {
        casts(rt, desks, number, places);
    }
}

/// How many messages came to the first couriers, who are so many.
fn came<C: Carrier>(desks: &Vec<Box<C>>, count: usize) -> u64 {
    let mut came = 0u64;
    for desk in desks.iter().take(count) {
        came = came.saturating_add(u64::from(desk.came()));
    }
    came
}

/// Waits until so many messages came to the first couriers, who are so many.
fn awaits<R: Threads, C: Carrier>(
    rt: &impl Abort,
    threads: R,
    desks: &Vec<Box<C>>,
    least: u64,
    count: usize,
) {
    let start = now(rt, &threads);
    for _ in threads.forever() {
        if came(desks, count) >= least {
            break;
        }
        waits_a_little(rt, &threads, start);
    }
}

/// So many messages have come to the first couriers, who are so many, and no more.
fn have_come<C: Carrier>(rt: &impl Abort, desks: &Vec<Box<C>>, wanted: u64, count: usize) {
    same(rt, "so many came", &came(desks, count), &wanted);
}

/// The sum of the numbers from 1 to this one, in order. In each other order it is greater.
fn in_order(last: u32) -> u64 {
    let mut sum = 0;
    for number in 1..=last {
        sum = with(sum, number);
    }
    sum
}

/// To a courier the numbers from 1 to this one came in order, each once.
fn is_in_order<C: Carrier>(rt: &impl Abort, desk: &mut C, last: u32) {
    let look = got(rt, "there is memory", desk.try_look());
    same(rt, "so many", &look.state, &last);
    same(rt, "in order", &look.held, &in_order(last));
    drop(look);
}

/// To each of the first couriers, who are so many, the numbers from 1 to this one came in order, each once.
fn are_in_order<C: Carrier>(rt: &impl Abort, desks: &mut Vec<Box<C>>, last: u32, count: usize) {
    for (place, desk) in desks.iter_mut().enumerate() {
        if place < count {
            is_in_order(rt, &mut **desk, last);
        }
    }
}

/// Plays a row at the desks of couriers.
fn does<R: Threads, C: Carrier>(
    rt: &impl Abort,
    threads: R,
    desks: &mut Vec<Box<C>>,
    row: &Parcel,
) {
    match row {
        Parcel::Casts(numbers, places) => casts_each(rt, desks, *numbers, *places),
        Parcel::Awaits(least, count) => awaits(rt, threads, desks, *least, *count),
        Parcel::HaveCome(wanted, count) => have_come(rt, desks, *wanted, *count),
        Parcel::AreInOrder(last, count) => are_in_order(rt, desks, *last, *count),
    }
}

/// Plays rows at the desks of couriers.
pub fn plays<R: Threads, C: Carrier>(
    rt: &Host<impl Abort>,
    threads: R,
    desks: &mut Vec<Box<C>>,
    rows: &[Parcel],
) {
    for (place, row) in rows.iter().enumerate() {
        rt.begins_row(place);
        does(rt, threads, desks, row);
    }
}
