//! Tests of st_events: each call once with memory, and lists while an allocation is refused.
ghost use Rattle.std.specs.Prelude.{◌≡◌, [], max};

use super::host::{Host, got, holds, is_count, is_number, same};
use st_events::{
    Action, Actions, MachineId, PlainList, PlainText, Refusal, Refused, SmallList,
    SmallListBuilder, Tag,
};
use std::alloc::{AllocError, AllocFailed, Global};
use std::fmt::{Debug, Display};
use std::process::Abort;

const MACHINE: MachineId = MachineId { slot: 2, serial: 5 };

/// The same for texts.
fn is_text(rt: &impl Abort, word: &str, found: &str, wanted: &str) {
    same(rt, word, &found, &wanted);
}

/// The same for numbers in a row.
fn are(rt: &impl Abort, word: &str, found: &[u64], wanted: &[u64]) {
    same(rt, word, &found, &wanted);
}

/// The same for a number that has to be there.
fn is_there(rt: &impl Abort, word: &str, found: Option<u64>, wanted: u64) {
    same(rt, word, &found, &Some(wanted));
}

/// The same for refusals.
fn is_refusal(rt: &impl Abort, word: &str, found: Refusal, wanted: Refusal) {
    same(rt, word, &found, &wanted);
}

/// A vector of two numbers. Where memory was refused, it is made again.
fn pair(rt: &Host<impl Abort>, alloc: Global) -> Vec<u64> {
    if let Ok(numbers) = [8, 9].to_vec(alloc) {
        return numbers;
    }
    rt.retry();
    got(rt, "one allocation alone is refused", [8, 9].to_vec(alloc))
}

/// A value that is written. Where memory was refused, it is written again.
fn written(rt: &Host<impl Abort>, alloc: Global, value: &impl Display) -> String {
    if let Ok(text) = format!(in alloc; "{value}") {
        return text;
    }
    rt.retry();
    let again = format!(in alloc; "{value}");
    got(rt, "one allocation alone is refused", again)
}

/// Looks at a text that is written.
fn is_written(rt: &Host<impl Abort>, alloc: Global, value: &impl Display, wanted: &str) {
    let text = written(rt, alloc, value);
    is_text(rt, "the text", text.as_str(), wanted);
    drop(text);
}

/// Looks at what a list is shown as. Where memory was refused, it is written again.
fn is_shown(rt: &Host<impl Abort>, alloc: Global, list: &impl Debug, wanted: &str) {
    let mut text = format!(in alloc; "{list:?}");
    if text.is_err() {
        rt.retry();
        text = format!(in alloc; "{list:?}");
    }
    let text = got(rt, "one allocation alone is refused", text);
    is_text(rt, "what is shown", text.as_str(), wanted);
    drop(text);
}

/// A list in the making, reserved for so many numbers. Where memory was refused, it is asked for again.
fn with_reserved(rt: &Host<impl Abort>, alloc: Global, count: usize) -> SmallListBuilder<u64>
    ensures { result ≡ record { items = []; reserved = max 4 count } }
{
    if let Ok(builder) = SmallListBuilder::with_reserved(alloc, count) {
        return builder;
    }
    holds(rt, "four lie in the list itself", count > 4);
    rt.retry();
    let builder = SmallListBuilder::with_reserved(alloc, count);
    got(rt, "one allocation alone is refused", builder)
}

/// A reply to a request, with ten times its number.
fn reply(request: u64) -> Action<u64> {
    Action::Reply(Tag::new(MACHINE, request), request.saturating_mul(10))
}

/// Says whether an action is that reply.
fn is_reply(action: &Action<u64>, request: u64) -> bool {
    match action {
        Action::Reply(tag, content) => {
            *tag == Tag::new(MACHINE, request) && *content == request.saturating_mul(10)
        }
        _ => false,
    }
}

/// Adds a number, which lies in the list itself.
fn push_inline(rt: &impl Abort, list: &mut SmallList<u64>, number: u64) {
    got(rt, "four lie in the list itself", list.push(number));
}

/// Looks that a list has these elements, and no others.
fn has(rt: &impl Abort, list: &SmallList<u64>, elements: &[u64]) {
    is_count(rt, "how many there are", list.len(), elements.len());
    let is_empty = list.is_empty() == elements.is_empty();
    holds(rt, "none only of none", is_empty);
    for (index, element) in elements.iter().enumerate() {
        same(rt, "the element", &list.get(index), &Some(element));
    }
    let behind = list.get(elements.len()).is_none();
    holds(rt, "none behind the last", behind);
}

/// Looks that these elements are taken from a list's places, in their order, and no others.
fn gives(rt: &impl Abort, list: SmallList<u64>, elements: &[u64]) {
    let mut places = list.into_places();
    let mut left = places.take_each();
    for element in elements {
        is_there(rt, "what is taken", left.next(), *element);
    }
    holds(rt, "none is left", left.next() == None);
    drop(left);
    drop(places);
}

/// Looks that a list has the replies to the requests 0, 1, .., and no others.
fn has_replies(rt: &impl Abort, actions: &Actions<u64>, count: usize) {
    is_count(rt, "how many there are", actions.len(), count);
    for (index, request) in (0..count).zip(0..6) {
        let action = actions.get(index).expect(rt, "there are so many");
        holds(rt, "the reply to its request", is_reply(action, request));
    }
}

/// Numbers come into a short list and leave.
fn a_list_answers(rt: &Host<impl Abort>, alloc: Global) {
    let mut short = SmallList::new(alloc);
    has(rt, &short, &[]);
    holds(rt, "none to take out", short.pop() == None);
    for number in [6, 4, 2] {
        push_inline(rt, &mut short, number);
    }
    has(rt, &short, &[6, 4, 2]);
    short.reverse();
    has(rt, &short, &[2, 4, 6]);
    is_there(rt, "the last", short.pop(), 6);
    has(rt, &short, &[2, 4]);
    is_shown(rt, alloc, &short, "[2, 4]");
    push_inline(rt, &mut short, 8);
    is_there(rt, "the second", short.replace(1, 5), 4);
    holds(rt, "none behind the last", short.replace(3, 7) == None);
    gives(rt, short, &[2, 5, 8]);
}

/// A list is made of two numbers.
fn a_builder_answers(rt: &Host<impl Abort>, alloc: Global) {
    let mut builder = with_reserved(rt, alloc, 2);
    builder.push(3);
    builder.push(1);
    let pair_of_numbers = builder.finish();
    has(rt, &pair_of_numbers, &[3, 1]);
    // The second is let go with its place.
    let mut places = pair_of_numbers.into_places();
    let first = places.take_each().next();
    is_there(rt, "the first", first, 3);
    drop(places);
}

/// A vector becomes a plain list, and is it again.
fn a_plain_list_answers(rt: &Host<impl Abort>, alloc: Global) {
    let none: PlainList<u64> = PlainList::new(alloc);
    are(rt, "none", none.as_slice(), [].as_slice());
    let two = PlainList::from(pair(rt, alloc));
    are(rt, "two", two.as_slice(), [8, 9].as_slice());
    let other = PlainList::from(pair(rt, alloc));
    holds(rt, "lists of the same are equal", two == other);
    holds(rt, "others are not", two != none);
    is_shown(rt, alloc, &two, "[8, 9]");
    let numbers = two.into_vec();
    are(rt, "two", numbers.as_slice(), [8, 9].as_slice());
    drop(numbers);
    drop(other);
    drop(none);
}

/// Adds a number. A push that finds no memory leaves the list, and is made again.
fn push_plain(rt: &Host<impl Abort>, list: &mut PlainList<u64>, number: u64) {
    let count = list.len();
    if let Err(failed) = list.push(number) {
        is_number(rt, "it comes back", failed.value, number);
        is_count(rt, "how many there are", list.len(), count);
        rt.retry();
        let again = list.push(failed.value);
        got(rt, "one allocation alone is refused", again);
    }
}

/// A copy of two numbers. Where memory was refused, it is made again.
fn copied(rt: &Host<impl Abort>, alloc: Global) -> PlainList<u64> {
    let numbers = [8, 9];
    if let Ok(copy) = PlainList::copied(alloc, numbers.as_slice()) {
        return copy;
    }
    rt.retry();
    let again = PlainList::copied(alloc, numbers.as_slice());
    got(rt, "one allocation alone is refused", again)
}

/// Elements are copied into a plain list, and come in behind them.
fn a_plain_list_grows(rt: &Host<impl Abort>, alloc: Global) {
    let mut list = copied(rt, alloc);
    push_plain(rt, &mut list, 7);
    are(rt, "three", list.as_slice(), [8, 9, 7].as_slice());
    is_count(rt, "how many", list.len(), 3);
    same(rt, "the last", &list.get(2), &Some(&7));
    holds(rt, "none behind the last", list.get(3) == None);
    drop(list);
}

/// A copy of a text. Where memory was refused, it is made again.
fn copied_text(rt: &Host<impl Abort>, alloc: Global) -> PlainText {
    if let Ok(copy) = PlainText::copied(alloc, "door") {
        return copy;
    }
    rt.retry();
    let again = PlainText::copied(alloc, "door");
    got(rt, "one allocation alone is refused", again)
}

/// A text is copied, becomes a string, and is a text again.
fn a_plain_text_answers(rt: &Host<impl Abort>, alloc: Global) {
    let text = copied_text(rt, alloc);
    is_text(rt, "the text", text.as_str(), "door");
    let again = PlainText::from(text.into_string());
    is_text(rt, "the text again", again.as_str(), "door");
    drop(again);
}

#[test]
fn each_call_answers(rt: HostRuntime) {
    let rt = Host::new(rt);
    a_list_answers(&rt, rt.alloc());
    a_builder_answers(&rt, rt.alloc());
    a_plain_list_answers(&rt, rt.alloc());
    a_plain_list_grows(&rt, rt.alloc());
    a_plain_text_answers(&rt, rt.alloc());
    rt.end();
}

/// Refusals come of a want of memory, and of a refused call.
fn refusals_come_of_others(rt: &impl Abort) {
    let of_memory = Refusal::from(AllocError);
    is_refusal(rt, "no memory", of_memory, Refusal::NoMemory);
    let of_a_push = Refusal::from(AllocFailed { value: 7 });
    is_refusal(rt, "no memory for it", of_a_push, Refusal::NoMemory);
    let refused = Refused::new(Refusal::Moment, 7);
    is_refusal(rt, "why", refused.refusal, Refusal::Moment);
    same(rt, "what comes back", &refused.value, &7);
    is_refusal(rt, "why alone", Refusal::from(refused), Refusal::Moment);
}

#[test]
fn refusals_have_numbers_and_texts(rt: HostRuntime) {
    static ROWS: [(Refusal, u8, &str); 12] = [
        (Refusal::NoMemory, 1, "no memory"),
        (Refusal::Stopped(9), 2, "stopped with reason 9"),
        (Refusal::Exhausted, 3, "too few numbers left"),
        (Refusal::Moment, 4, "moment out of range"),
        (Refusal::NotPossible, 5, "not possible"),
        (Refusal::NotQueued, 6, "token not outstanding"),
        (Refusal::AlreadyStarted(MACHINE), 7, "name already taken"),
        (Refusal::NoSuchName, 8, "no such name"),
        (Refusal::NoSuchMachine, 9, "no such machine"),
        (Refusal::NotStopped, 10, "not stopped"),
        (Refusal::Full, 11, "table full"),
        (Refusal::BadName, 12, "bad name"),
    ];
    let rt = Host::new(rt);
    for (refusal, number, text) in &ROWS {
        same(&rt, "its number", &refusal.number(), number);
        is_written(&rt, rt.alloc(), refusal, text);
    }
    refusals_come_of_others(&rt);
    let tag = Tag::new(MACHINE, 4);
    holds(&rt, "the machine of a tag", tag.machine == MACHINE);
    holds(&rt, "the request of a tag", tag.request == 4);
    rt.end();
}

/// Adds the reply to a request. A push that finds no memory changes nothing that can be read, and is made again.
fn push_reply(rt: &Host<impl Abort>, actions: &mut Actions<u64>, request: u64) {
    let count = actions.len();
    if let Err(failed) = actions.push(reply(request)) {
        holds(rt, "four lie in the list itself", count >= 4);
        holds(rt, "it comes back", is_reply(&failed.value, request));
        has_replies(rt, actions, count);
        rt.retry();
        let again = actions.push(failed.value);
        got(rt, "one allocation alone is refused", again);
    }
    has_replies(rt, actions, count.saturating_add(1));
}

#[test]
fn a_refused_push_changes_nothing(rt: HostRuntime) {
    let rt = Host::new(rt);
    let mut actions: Actions<u64> = SmallList::new(rt.alloc());
    for request in 0..6 {
        push_reply(&rt, &mut actions, request);
    }
    let mut places = actions.into_places();
    let mut left = places.take_each();
    for request in 0..6 {
        let action = left.next().expect(&rt, "there are so many");
        holds(&rt, "in order", is_reply(&action, request));
    }
    holds(&rt, "none is left", left.next().is_none());
    drop(left);
    drop(places);
    rt.end();
}

#[test]
fn memory_is_reserved_before_the_elements_come(rt: HostRuntime) {
    let rt = Host::new(rt);
    let mut builder = with_reserved(&rt, rt.alloc(), 6);
    builder.push(9);
    builder.push(8);
    builder.push(7);
    builder.push(6);
    builder.push(5);
    builder.push(4);
    let list = builder.finish();
    has(&rt, &list, &[9, 8, 7, 6, 5, 4]);
    drop(list);
    rt.end();
}
