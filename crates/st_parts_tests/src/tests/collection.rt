//! Tests of st_collection: what collections answer, with memory and while an allocation is refused, where each call is
//! made again.

mod asked;

use super::host::{Host, got, holds, is_count, same};
use asked::{Asked, tag};
use st_collection::{Collection, Refusal, Request, Tag};
use std::process::Abort;

/// A collection of requests whose answers are fixed, with letters for labels.
type Letters = Collection<Asked, char>;

/// The requests' tags and labels. Where there is no memory to list them, they are listed again.
fn list(rt: &Host<impl Abort>, collection: &Letters) -> Vec<(Tag, char)> {
    let mut list = collection.to_list();
    if let Err(refusal) = list {
        holds(rt, "memory is wanted", refusal == Refusal::NoMemory);
        rt.retry();
        list = collection.to_list();
    }
    got(rt, "the list finds memory", list)
}

/// What is listed is the tag of this number and this label.
fn is_listed(rt: &Host<impl Abort>, listed: &(Tag, char), number: u64, label: char) {
    holds(rt, "the tag", listed.0 == tag(number));
    holds(rt, "its label", listed.1 == label);
}

/// The collection has the requests of these numbers, with these labels, in this order.
fn shows(rt: &Host<impl Abort>, collection: &Letters, wanted: &[(u64, char)]) {
    let list = list(rt, collection);
    is_count(rt, "how many are listed", list.len(), wanted.len());
    is_count(rt, "how many there are", collection.size(), wanted.len());
    let is_empty = collection.is_empty() == wanted.is_empty();
    holds(rt, "none only of none", is_empty);
    for (shown, (number, label)) in list.iter().zip(wanted) {
        is_listed(rt, shown, *number, *label);
    }
    drop(list);
}

/// Adds a request. Where there is no memory, it comes back, the collection is as it was, and it is added again.
fn add(
    rt: &Host<impl Abort>,
    collection: &mut Letters,
    number: u64,
    label: char,
    was: &[(u64, char)],
) {
    if let Err(refused) = collection.add(Asked::new(number), label) {
        let refusal = refused.refusal == Refusal::NoMemory;
        holds(rt, "memory is wanted", refusal);
        rt.retry();
        shows(rt, collection, was);
        let again = collection.add(refused.value, label);
        got(rt, "one allocation alone is refused", again);
    }
}

#[test]
fn requests_are_taken_out(rt: HostRuntime) {
    let rt = Host::new(rt);
    let mut collection = Collection::new(rt.alloc());
    shows(&rt, &collection, &[]);
    add(&rt, &mut collection, 1, 'a', &[]);
    add(&rt, &mut collection, 2, 'b', &[(1, 'a')]);
    add(&rt, &mut collection, 3, 'c', &[(1, 'a'), (2, 'b')]);
    holds(&rt, "there are three", collection.size() == 3);
    same(&rt, "the second", &collection.get(1).tag(), &tag(2));
    same(&rt, "its label", &collection.take(1), &'b');
    shows(&rt, &collection, &[(1, 'a'), (3, 'c')]);
    drop(collection);
    rt.end();
}

#[test]
fn a_tag_that_is_there_keeps_its_place(rt: HostRuntime) {
    let rt = Host::new(rt);
    let mut collection = Collection::new(rt.alloc());
    add(&rt, &mut collection, 1, 'a', &[]);
    add(&rt, &mut collection, 2, 'b', &[(1, 'a')]);
    add(&rt, &mut collection, 1, 'c', &[(1, 'a'), (2, 'b')]);
    shows(&rt, &collection, &[(1, 'c'), (2, 'b')]);
    drop(collection);
    rt.end();
}
