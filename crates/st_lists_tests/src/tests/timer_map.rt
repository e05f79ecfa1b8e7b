//! Tests of st_timer_map: each call once with memory at hand, and all of them where one allocation is refused.
ghost use Rattle.std.specs.Prelude.{◌≤◌, true};

use super::host::{Host, got, holds, is_count, is_letter, same};
use st_timer_map::{Mark, Timer, TimerMap};
use std::process::Abort;

/// A letter that can be marked.
#[derive(Drop)]
struct Letter {
    letter: char,
    marked: bool,
}

/// A letter's timer, the letter, and whether it is marked.
type Row = (Timer, char, bool);

impl Mark for Letter {
    type Row = (Timer, char, bool);

    ghost row_of = { λ timer letter. (timer, letter.letter, letter.marked) };

    ghost marked = { λ letter. record letter { marked = true } };

    fn row(&self, timer: Timer) -> (Timer, char, bool) {
        (timer, self.letter, self.marked)
    }

    fn mark(&mut self) {
        self.marked = true;
    }
}

/// A letter that is not marked.
fn plain(letter: char) -> Letter {
    Letter {
        letter,
        marked: false,
    }
}

/// The letter alone, where there is one.
fn letter_of(letter: Option<Letter>) -> Option<char> {
    Some(letter?.letter)
}

/// The rows. Where they find no memory, they are asked for again.
fn listed(rt: &Host<impl Abort + AllocGlobal>, map: &TimerMap<Letter>) -> Vec<Row> {
    if let Ok(list) = map.list() {
        return list;
    }
    rt.retry();
    got(rt, "one allocation alone is refused", map.list())
}

/// Looks that the letter of a row is found by its timer.
fn is_found(rt: &impl Abort, map: &TimerMap<Letter>, row: Row) {
    let found = map.get(row.0).expect(rt, "what is listed is found");
    holds(rt, "its letter is found", found.letter == row.1);
    holds(rt, "its mark is found", found.marked == row.2);
}

/// The rows, of which each is found by its timer.
fn look(rt: &Host<impl Abort + AllocGlobal>, map: &TimerMap<Letter>) -> Vec<Row> {
    let list = listed(rt, map);
    holds(rt, "all are listed", map.len() == list.len());
    for row in &list {
        is_found(rt, map, *row);
    }
    list
}

/// Looks that these rows are listed, and no others.
fn lists(rt: &Host<impl Abort + AllocGlobal>, map: &TimerMap<Letter>, wanted: &[Row]) {
    same(rt, "what is listed", &look(rt, map).as_slice(), &wanted);
}

/// Looks that a timer has no letter.
fn has_none(rt: &impl Abort, map: &TimerMap<Letter>, timer: Timer) {
    holds(rt, "the timer has no letter", map.get(timer).is_none());
}

/// Reserves for so many. A call that finds no memory changes nothing that can be read, and is made again.
fn reserve_for(rt: &Host<impl Abort + AllocGlobal>, map: &mut TimerMap<Letter>, count: usize)
    ensures { count ≤ map.new.reserved }
{
    let before = look(rt, map);
    if map.reserve(count).is_err() {
        lists(rt, map, before.as_slice());
        rt.retry();
        got(rt, "one allocation alone is refused", map.reserve(count));
    }
}

/// Puts a letter, where this one was there, and reserves for it before. A call that finds no memory is made again.
fn put(
    rt: &Host<impl Abort>,
    map: &mut TimerMap<Letter>,
    timer: Timer,
    new: char,
    old: Option<char>,
) {
    if map.reserve(1).is_err() {
        rt.retry();
        got(rt, "one allocation alone is refused", map.reserve(1));
    }
    let found = letter_of(map.put(timer, plain(new)));
    is_letter(rt, "the letter that was there", found, old);
}

/// Puts letters that were not there.
fn put_all(rt: &Host<impl Abort>, map: &mut TimerMap<Letter>, rows: &[(Timer, char)]) {
    for (timer, letter) in rows {
        put(rt, map, *timer, *letter, None);
    }
}

/// Replaces the letter of a timer, which is this one.
fn replace(
    rt: &impl Abort,
    map: &mut TimerMap<Letter>,
    timer: Timer,
    new: char,
    old: Option<char>,
) {
    let found = letter_of(map.replace(timer, plain(new)));
    is_letter(rt, "the letter that was there", found, old);
}

/// Takes the letter of a timer out, which is this one.
fn remove(rt: &impl Abort, map: &mut TimerMap<Letter>, timer: Timer, letter: Option<char>) {
    let found = letter_of(map.remove(timer));
    is_letter(rt, "the letter that is taken out", found, letter);
}

/// Looks how many timers have a letter.
fn counts(rt: &impl Abort, map: &TimerMap<Letter>, count: usize) {
    is_count(rt, "how many there are", map.len(), count);
}

/// Five letters are put, of which one replaces another, and one is marked.
fn letters_come(rt: &Host<impl Abort + AllocGlobal>, map: &mut TimerMap<Letter>) {
    let rows = [
        (Timer::Event, 'a'),
        (Timer::State, 'b'),
        (Timer::Named(7), 'c'),
        (Timer::Named(8), 'd'),
    ];
    put_all(rt, map, &rows);
    put(rt, map, Timer::Event, 'e', Some('a'));
    map.mark(Timer::Named(7));
    map.mark(Timer::Named(9));
    let wanted = [
        (Timer::State, 'b', false),
        (Timer::Named(7), 'c', true),
        (Timer::Named(8), 'd', false),
        (Timer::Event, 'e', false),
    ];
    lists(rt, map, &wanted);
}

/// The four that are left leave.
fn letters_leave(rt: &Host<impl Abort + AllocGlobal>, map: &mut TimerMap<Letter>) {
    remove(rt, map, Timer::Named(9), None);
    remove(rt, map, Timer::State, Some('b'));
    remove(rt, map, Timer::State, None);
    has_none(rt, map, Timer::State);
    remove(rt, map, Timer::Named(8), Some('d'));
    let wanted = [(Timer::Named(7), 'c', true), (Timer::Event, 'e', false)];
    lists(rt, map, &wanted);
    remove(rt, map, Timer::Named(7), Some('c'));
    remove(rt, map, Timer::Event, Some('e'));
    counts(rt, map, 0);
}

#[test]
fn each_call_answers(rt: HostRuntime) {
    let rt = Host::new(rt);
    let mut map = TimerMap::new(rt.alloc());
    counts(&rt, &map, 0);
    is_count(&rt, "none is reserved for", map.reserved(), 0);
    has_none(&rt, &map, Timer::Event);
    letters_come(&rt, &mut map);
    letters_leave(&rt, &mut map);
    rt.end();
}

#[test]
fn a_letter_is_replaced_in_its_place(rt: HostRuntime) {
    let rt = Host::new(rt);
    let mut map = TimerMap::new(rt.alloc());
    letters_come(&rt, &mut map);
    replace(&rt, &mut map, Timer::Named(9), 'f', None);
    replace(&rt, &mut map, Timer::State, 'g', Some('b'));
    replace(&rt, &mut map, Timer::Named(7), 'h', Some('c'));
    replace(&rt, &mut map, Timer::Event, 'i', Some('e'));
    let wanted = [
        (Timer::State, 'g', false),
        (Timer::Named(7), 'h', false),
        (Timer::Named(8), 'd', false),
        (Timer::Event, 'i', false),
    ];
    lists(&rt, &map, &wanted);
    rt.end();
}

#[test]
fn a_letter_is_replaced_among_many(rt: HostRuntime) {
    let rt = Host::new(rt);
    let mut map = TimerMap::new(rt.alloc());
    for name in 0..20 {
        put(&rt, &mut map, Timer::Named(name), 'a', None);
    }
    for name in 3..20 {
        remove(&rt, &mut map, Timer::Named(name), Some('a'));
    }
    replace(&rt, &mut map, Timer::Named(19), 'b', None);
    replace(&rt, &mut map, Timer::Named(0), 'c', Some('a'));
    replace(&rt, &mut map, Timer::Named(1), 'd', Some('a'));
    let wanted = [
        (Timer::Named(0), 'c', false),
        (Timer::Named(1), 'd', false),
        (Timer::Named(2), 'a', false),
    ];
    lists(&rt, &map, &wanted);
    rt.end();
}

/// A hundred timers get the letter a, and each second one of them loses it, from the first on.
fn fifty_stay(rt: &Host<impl Abort>, map: &mut TimerMap<Letter>) {
    for name in 0..100 {
        put(rt, map, Timer::Named(name), 'a', None);
    }
    put(rt, map, Timer::State, 's', None);
    for name in 0..50 {
        remove(rt, map, Timer::Named(name * 2), Some('a'));
    }
}

/// Each second one of those that stayed gets a letter in place of another.
fn half_change(rt: &Host<impl Abort>, map: &mut TimerMap<Letter>, old: char, new: char) {
    for place in 0..25 {
        put(rt, map, Timer::Named(place * 4 + 1), new, Some(old));
    }
}

/// They get a letter in place of another twelve times, from the b to the m.
fn half_change_often(rt: &Host<impl Abort>, map: &mut TimerMap<Letter>) {
    let mut last = 'a';
    for new in ['b', 'c', 'd', 'e', 'f', 'g', 'h', 'i', 'j', 'k', 'l', 'm'] {
        half_change(rt, map, last, new);
        last = new;
    }
}

/// Looks that of a hundred timers each second one has a letter, from the second on.
fn fifty_are_there(rt: &impl Abort, map: &TimerMap<Letter>) {
    for name in 0..100 {
        let is_there = map.get(Timer::Named(name)).is_some();
        holds(rt, "each second one is there", is_there == (name % 2 == 1));
    }
}

/// Looks at the rows: those that kept their letter come first, in order, and then those that changed it.
fn are_in_order(rt: &impl Abort, list: &[Row]) {
    is_count(rt, "how many are listed", list.len(), 50);
    let mut name = 3_u32;
    for row in list {
        let letter = if name % 4 == 3 { 'a' } else { 'm' };
        holds(rt, "its timer", row.0 == Timer::Named(name));
        holds(rt, "its letter", row.1 == letter);
        name = if name < 97 { name + 4 } else { 1 };
    }
}

#[test]
fn a_timer_put_again_goes_last_and_the_holes_are_closed(rt: HostRuntime) {
    let rt = Host::new(rt);
    let mut map = TimerMap::new(rt.alloc());
    reserve_for(&rt, &mut map, 101);
    fifty_stay(&rt, &mut map);
    half_change_often(&rt, &mut map);
    remove(&rt, &mut map, Timer::State, Some('s'));
    are_in_order(&rt, look(&rt, &map).as_slice());
    fifty_are_there(&rt, &map);
    rt.end();
}

#[test]
fn a_refused_call_changes_nothing(rt: HostRuntime) {
    let rt = Host::new(rt);
    let mut map = TimerMap::new(rt.alloc());
    reserve_for(&rt, &mut map, 1);
    put(&rt, &mut map, Timer::Event, 'a', None);
    reserve_for(&rt, &mut map, 3);
    let rows = [
        (Timer::Named(1), 'b'),
        (Timer::Named(2), 'c'),
        (Timer::State, 'd'),
    ];
    put_all(&rt, &mut map, &rows);
    remove(&rt, &mut map, Timer::Event, Some('a'));
    map.mark(Timer::Named(2));
    reserve_for(&rt, &mut map, 20);
    put(&rt, &mut map, Timer::Named(1), 'e', Some('b'));
    put(&rt, &mut map, Timer::Named(3), 'f', None);
    reserve_for(&rt, &mut map, 100);
    put(&rt, &mut map, Timer::Event, 'g', None);
    remove(&rt, &mut map, Timer::Named(3), Some('f'));
    let wanted = [
        (Timer::Named(2), 'c', true),
        (Timer::State, 'd', false),
        (Timer::Named(1), 'e', false),
        (Timer::Event, 'g', false),
    ];
    lists(&rt, &map, &wanted);
    rt.end();
}
