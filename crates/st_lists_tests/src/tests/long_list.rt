//! Tests of st_long_list: each call once with memory at hand, and all of them where one allocation is refused.
ghost use Rattle.std.specs.Prelude.{◌≤◌};

use super::host::{Host, got, holds, is_count, same};
use st_long_list::LongList;
use std::process::Abort;

/// Looks that it is this number, or that there is none.
fn is_item(rt: &impl Abort, word: &str, found: Option<u32>, wanted: Option<u32>) {
    same(rt, word, &found, &wanted);
}

/// All that can be read of a list without a change to it, of up to 2,048 elements.
#[derive(Drop)]
struct Seen {
    len: usize,
    is_empty: bool,
    last: Option<u32>,
    items: [Option<u32>; 2_048],
}

fn readable(list: &LongList<u32>) -> Seen {
    let mut items = [None; 2_048];
    for (place, item) in items.iter_mut().enumerate() {
        *item = list.get(place).copied();
    }
    Seen {
        len: list.len(),
        is_empty: list.is_empty(),
        last: list.last().copied(),
        items,
    }
}

/// Looks that all that can be read is as it was.
fn unchanged(rt: &impl Abort, list: &LongList<u32>, before: &Seen) {
    let after = readable(list);
    is_count(rt, "the length stays", after.len, before.len);
    let is_same = after.is_empty == before.is_empty;
    holds(rt, "it is empty as before", is_same);
    is_item(rt, "the last one stays", after.last, before.last);
    holds(rt, "the elements stay", after.items == before.items);
}

/// Reserves for so many. A call that finds no memory changes nothing that can be read, and is made again.
fn reserve_for(rt: &Host<impl Abort>, list: &mut LongList<u32>, count: usize)
    ensures { count ≤ list.new.reserved }
{
    let before = readable(list);
    if list.reserve(count).is_err() {
        unchanged(rt, list, &before);
        rt.retry();
        got(rt, "one allocation alone is refused", list.reserve(count));
    }
}

/// Puts a number at a place, and reserves for it before.
fn insert(rt: &Host<impl Abort>, list: &mut LongList<u32>, place: usize, number: u32) {
    reserve_for(rt, list, 1);
    holds(rt, "the place is no gap", place <= list.len());
    list.insert(place, number);
}

/// Puts the numbers from one up to another in, each behind all others.
fn line_up(rt: &Host<impl Abort>, list: &mut LongList<u32>, first: u32, end: u32) {
    for number in first..end {
        insert(rt, list, list.len(), number);
    }
}

/// Puts the numbers from one up to another in, each at the same place.
fn crowd_in(rt: &Host<impl Abort>, list: &mut LongList<u32>, place: usize, first: u32, end: u32) {
    for number in first..end {
        insert(rt, list, place, number);
    }
}

/// The numbers from one up to another leave, each from the same place.
fn leave(rt: &impl Abort, list: &mut LongList<u32>, place: usize, first: u32, end: u32) {
    for number in first..end {
        is_item(rt, "what leaves", list.remove(place), Some(number));
    }
}

/// The numbers from one up to another leave from the end of the list, where the least stands last.
fn pop_up(rt: &impl Abort, list: &mut LongList<u32>, first: u32, end: u32) {
    for number in first..end {
        is_item(rt, "what leaves", list.pop(), Some(number));
    }
}

/// So many numbers leave from the end of the list, where they go down from the first on.
fn pop_down(rt: &impl Abort, list: &mut LongList<u32>, first: u32, count: u32) {
    for number in 0..count {
        let wanted = Some(first.wrapping_sub(number));
        is_item(rt, "what leaves", list.pop(), wanted);
    }
}

/// From a place up to another stand numbers that go up by a step, from the first on.
fn goes_up(rt: &impl Abort, list: &LongList<u32>, place: usize, end: usize, first: u32, step: u32) {
    let mut number = first;
    for place in place..end {
        is_item(rt, "it goes up", list.get(place).copied(), Some(number));
        number = number.wrapping_add(step);
    }
}

/// From a place up to another stand numbers that go down by a step, from the first on.
fn goes_down(
    rt: &impl Abort,
    list: &LongList<u32>,
    place: usize,
    end: usize,
    first: u32,
    step: u32,
) {
    let mut number = first;
    for place in place..end {
        is_item(rt, "it goes down", list.get(place).copied(), Some(number));
        number = number.wrapping_sub(step);
    }
}

/// Looks how many there are, and at the last one.
fn ends(rt: &impl Abort, list: &LongList<u32>, len: usize, last: Option<u32>) {
    is_count(rt, "how many", list.len(), len);
    holds(rt, "none only of none", list.is_empty() == (len == 0));
    is_item(rt, "the last", list.last().copied(), last);
    holds(rt, "none behind it", list.get(len) == None);
}

/// A list without elements.
fn has_none(rt: &impl Abort, list: &mut LongList<u32>) {
    ends(rt, list, 0, None);
    holds(rt, "none to take out", list.remove(0) == None);
    holds(rt, "none at the end", list.pop() == None);
}

/// Numbers come in at the front, in the middle and at the end, and leave.
fn come_and_leave(rt: &Host<impl Abort>, list: &mut LongList<u32>) {
    for (place, number) in [(0, 5), (0, 3), (1, 4), (3, 6)] {
        insert(rt, list, place, number);
    }
    ends(rt, list, 4, Some(6));
    goes_up(rt, list, 0, 4, 3, 1);
    leave(rt, list, 1, 4, 5);
    holds(rt, "no such place", list.remove(3) == None);
    pop_down(rt, list, 6, 1);
    ends(rt, list, 2, Some(5));
    goes_up(rt, list, 0, 2, 3, 2);
}

#[test]
fn each_call_answers(rt: HostRuntime) {
    let rt = Host::new(rt);
    let mut list = LongList::new(rt.alloc());
    has_none(&rt, &mut list);
    come_and_leave(&rt, &mut list);
    rt.end();
}

#[test]
fn many_come_in(rt: HostRuntime) {
    let rt = Host::new(rt);
    let mut list = LongList::new(rt.alloc());
    reserve_for(&rt, &mut list, 1_600);
    line_up(&rt, &mut list, 0, 800);
    crowd_in(&rt, &mut list, 0, 800, 1_200);
    crowd_in(&rt, &mut list, 800, 1_200, 1_600);
    ends(&rt, &list, 1_600, Some(799));
    goes_down(&rt, &list, 0, 400, 1_199, 1);
    goes_up(&rt, &list, 400, 800, 0, 1);
    goes_down(&rt, &list, 800, 1_200, 1_599, 1);
    goes_up(&rt, &list, 1_200, 1_600, 400, 1);
    rt.end();
}

/// Of the numbers from 0 up to 1,600 those leave that are below 600, those from 1,000 up to 1,400, and the last 80.
fn most_leave(rt: &impl Abort, list: &mut LongList<u32>) {
    leave(rt, list, 0, 0, 600);
    leave(rt, list, 400, 1_000, 1_400);
    pop_down(rt, list, 1_599, 80);
    holds(rt, "no such place", list.remove(520) == None);
    ends(rt, list, 520, Some(1_519));
    goes_up(rt, list, 0, 400, 600, 1);
    goes_up(rt, list, 400, 520, 1_400, 1);
}

/// Others come in before the last 40.
fn others_come_in(rt: &Host<impl Abort>, list: &mut LongList<u32>) {
    crowd_in(rt, list, 480, 0, 1_080);
    ends(rt, list, 1_600, Some(1_519));
    goes_up(rt, list, 400, 480, 1_400, 1);
    goes_down(rt, list, 480, 1_560, 1_079, 1);
    goes_up(rt, list, 1_560, 1_600, 1_480, 1);
}

/// All leave, from the front and from the end.
fn all_leave(rt: &impl Abort, list: &mut LongList<u32>) {
    leave(rt, list, 0, 600, 1_000);
    leave(rt, list, 0, 1_400, 1_480);
    pop_down(rt, list, 1_519, 40);
    pop_up(rt, list, 0, 1_080);
    holds(rt, "none is left", list.is_empty());
}

#[test]
fn many_leave(rt: HostRuntime) {
    let rt = Host::new(rt);
    let mut list = LongList::new(rt.alloc());
    reserve_for(&rt, &mut list, 1_600);
    line_up(&rt, &mut list, 0, 1_600);
    most_leave(&rt, &mut list);
    others_come_in(&rt, &mut list);
    all_leave(&rt, &mut list);
    rt.end();
}

/// So many can never be reserved for.
fn refuses(rt: &impl Abort, list: &mut LongList<u32>, count: usize) {
    holds(rt, "that is too many", list.reserve(count).is_err());
}

#[test]
fn a_refused_call_changes_nothing(rt: HostRuntime) {
    let rt = Host::new(rt);
    let mut list = LongList::new(rt.alloc());
    refuses(&rt, &mut list, usize::MAX);
    line_up(&rt, &mut list, 0, 6);
    refuses(&rt, &mut list, usize::MAX);
    refuses(&rt, &mut list, usize::MAX - 6);
    reserve_for(&rt, &mut list, 520);
    crowd_in(&rt, &mut list, 3, 6, 560);
    leave(&rt, &mut list, 3, 559, 560);
    reserve_for(&rt, &mut list, 1_200);
    ends(&rt, &list, 559, Some(5));
    goes_up(&rt, &list, 0, 3, 0, 1);
    goes_down(&rt, &list, 3, 556, 558, 1);
    goes_up(&rt, &list, 556, 559, 3, 1);
    rt.end();
}
