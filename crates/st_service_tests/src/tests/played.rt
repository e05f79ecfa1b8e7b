//! Rows at a clerk's hatch are played: where a call finds no memory, nothing was posted, and it is made again.
use super::hired::Hired;
use super::host::{Host, got, holds, same};
use super::part::Part;
use super::patience::{Threads, now, waits_a_little};
use super::row::Row;
use super::said::Said;
use super::way::Way;
use crate::Order;
use st_service::Refusal;
use std::process::Abort;
use std::thread;
use std::time::Duration;

/// Tells a clerk an order once.
fn try_tell<H: Hired>(hatch: &mut H, way: Way, order: Order) -> Said {
    match way {
        Way::Cast | Way::Info => hatch.tell(way, order),
        Way::Call => hatch.call(order),
        Way::Request => hatch.request(order),
    }
}

/// Tells a clerk an order. Where there is no memory, nothing was posted, and he is told again.
fn tells<H: Hired>(rt: &Host<impl Abort>, hatch: &mut H, way: Way, order: Order) -> Said {
    let count = hatch.see().count;
    let said = try_tell(hatch, way, order);
    if said != Said::Refused(Refusal::NoMemory, order) {
        return said;
    }
    same(rt, "nothing was posted", &hatch.see().count, &count);
    rt.retry();
    try_tell(hatch, way, order)
}

/// Tells a clerk an order. Where his reply was not collected for want of memory, it is collected again.
fn hears<H: Hired>(rt: &Host<impl Abort>, hatch: &mut H, way: Way, order: Order) -> Said {
    let said = tells(rt, hatch, way, order);
    if said != Said::Uncollected(Refusal::NoMemory) {
        return said;
    }
    rt.retry();
    hatch.collect()
}

/// A clerk is told an order, and says this.
fn says<H: Hired>(rt: &Host<impl Abort>, hatch: &mut H, way: Way, order: Order, wanted: &Said) {
    same(rt, "he says", &hears(rt, hatch, way, order), wanted);
}

/// The sum that a clerk replies with.
fn sum<H: Hired>(rt: &Host<impl Abort>, hatch: &mut H) -> u32 {
    match hears(rt, hatch, Way::Call, Order::Ask) {
        Said::Reply(Order::Sum(sum)) => sum,
        _ => panic!(rt; "he replies with a sum"),
    }
}

/// Waits until a clerk's sum is this. That it is within some seconds is tested.
fn awaits_sum<R: Threads, H: Hired>(rt: &Host<impl Abort>, threads: R, hatch: &mut H, wanted: u32) {
    let start = now(rt, &threads);
    for _ in threads.forever() {
        if sum(rt, hatch) == wanted {
            break;
        }
        waits_a_little(rt, &threads, start);
    }
}

/// Whether his journal has so many posts, from the fewest to the most.
fn keeps<H: Hired>(rt: &impl Abort, hatch: &mut H, told: u64, fewest: usize, most: usize) -> bool {
    let look = got(rt, "there is memory", hatch.try_look());
    same(rt, "he was told so often", &look.mine, &told);
    same(rt, "so often here", &hatch.see().count, &told);
    let numbers = look.numbers.len();
    drop(look);
    fewest <= numbers && numbers <= most
}

/// His journal comes to have so many posts, from the fewest to the most.
fn awaits_kept<R: Threads, H: Hired>(
    rt: &impl Abort,
    threads: R,
    hatch: &mut H,
    told: u64,
    (fewest, most): (usize, usize),
) {
    for _ in 0..10_000 {
        if keeps(rt, hatch, told, fewest, most) {
            return;
        }
        thread::sleep(&threads, Duration::from_millis(1));
    }
    holds(rt, "what is kept of him", false);
}

/// Plays a row at a clerk's hatch.
fn does<R: Threads, H: Hired>(rt: &Host<impl Abort>, threads: R, hatch: &mut H, row: &Row) {
    match row {
        Row::Tells(order) => says(rt, hatch, Way::Cast, *order, &Said::Told),
        Row::Asks(sum) => {
            let reply = Said::Reply(Order::Sum(*sum));
            says(rt, hatch, Way::Call, Order::Ask, &reply);
        }
        Row::Says(way, order, wanted) => says(rt, hatch, *way, *order, wanted),
        Row::WasTold(count) => same(rt, "so often he was told", &hatch.see().count, count),
        Row::HasEnded(reason, word) => {
            let wanted = Some((*reason, *word));
            same(rt, "he has ended", &hatch.see().ended, &wanted);
        }
        Row::AwaitsSum(sum) => awaits_sum(rt, threads, hatch, *sum),
        Row::AwaitsKept(told, fewest, most) => {
            awaits_kept(rt, threads, hatch, *told, (*fewest, *most));
        }
    }
}

/// Plays rows at a clerk's hatch.
fn plays_at<R: Threads, H: Hired>(rt: &Host<impl Abort>, threads: R, hatch: &mut H, rows: &[Row]) {
    for (place, row) in rows.iter().enumerate() {
        rt.begins_row(place);
        does(rt, threads, hatch, row);
    }
}

/// Plays rows at each of some hatches, one after another.
fn plays_each<R: Threads, H: Hired>(
    rt: &Host<impl Abort>,
    threads: R,
    hatches: &mut Vec<Box<H>>,
    rows: &[Row],
) {
    for hatch in hatches.iter_mut() {
        plays_at(rt, threads, &mut **hatch, rows);
    }
}

/// Plays rows at the hatches that they are for.
pub fn plays<R: Threads, H: Hired>(
    rt: &Host<impl Abort>,
    threads: R,
    hatches: &mut Vec<Box<H>>,
    part: &Part,
) {
    match part {
        Part::At(place, rows) => {
            let hatch = hatches.get_mut(*place).expect(rt, "a hatch");
            plays_at(rt, threads, &mut **hatch, rows);
        }
        Part::Each(rows) => plays_each(rt, threads, hatches, rows),
    }
}
