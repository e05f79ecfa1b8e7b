//! Tests of st_words: what command lines come to, with memory and while an allocation is refused, where the call is made
//! again.

use super::host::{Host, got, holds, same};
use clap::Error;
use clap::error::ErrorKind;
use st_words::{Order, read_words};
use std::alloc::Global;
use std::process::Abort;

/// What the words ask for. Where memory was refused, the same call is made again.
fn read(rt: &Host<impl Abort>, alloc: Global, words: &[&str]) -> Result<Order, Error> {
    match read_words(alloc, words) {
        Err(error) if error.kind() == ErrorKind::OutOfMemory => {
            rt.retry();
            read_words(alloc, words)
        }
        answer => answer,
    }
}

/// The words ask for this.
fn asks_for(rt: &Host<impl Abort>, alloc: Global, words: &[&str], wanted: Order) {
    let order = got(rt, "the words are not at fault", read(rt, alloc, words));
    same(rt, "what is asked for", &order, &wanted);
}

/// Why the words ask for nothing.
fn refusal_of(rt: &Host<impl Abort>, alloc: Global, words: &[&str]) -> Error {
    match read(rt, alloc, words) {
        Ok(order) => panic!(rt; "{order:?}"),
        Err(error) => error,
    }
}

#[test]
fn words_are_read_again_after_a_want_of_memory(rt: HostRuntime) {
    let rt = Host::new(rt);
    let words = ["statem", "pool", "--workers=16"];
    asks_for(&rt, rt.alloc(), &words, Order::Pool(16));
    rt.end();
}

#[test]
fn each_order_has_its_words(rt: HostRuntime) {
    let rt = Host::with_memory(rt);
    static ROWS: [(&[&str], Order); 9] = [
        (&["statem", "run"], Order::Run),
        (&["statem", "trace"], Order::Trace),
        (&["statem", "pool"], Order::Pool(2)),
        (&["statem", "pool", "--workers", "1"], Order::Pool(1)),
        (&["statem", "pool", "--workers", "16"], Order::Pool(16)),
        (&["statem", "pool", "--workers=1"], Order::Pool(1)),
        (&["statem", "pool", "--workers=16"], Order::Pool(16)),
        (&["statem", "pool", "--workers", "+4"], Order::Pool(4)),
        (&["statem", "pool", "--workers=04"], Order::Pool(4)),
    ];
    for (words, wanted) in &ROWS {
        asks_for(&rt, rt.alloc(), *words, *wanted);
    }
    rt.end_with_memory();
}

#[test]
fn other_words_are_at_fault(rt: HostRuntime) {
    let rt = Host::with_memory(rt);
    static ROWS: [&[&str]; 13] = [
        &["statem"],
        &["statem", "walk"],
        &["statem", "run", "x"],
        &["statem", "trace", "run"],
        &["statem", "run", "--workers", "2"],
        &["statem", "--workers", "2"],
        &["statem", "pool", "4"],
        &["statem", "pool", "--workers"],
        &["statem", "pool", "--workers="],
        &["statem", "pool", "--workers", "0"],
        &["statem", "pool", "--workers", "17"],
        &["statem", "pool", "--workers=17"],
        &["statem", "pool", "--workers", "x"],
    ];
    for words in &ROWS {
        let error = refusal_of(&rt, rt.alloc(), *words);
        same(&rt, "the status", &error.exit_code(), &2);
        let has_memory = error.kind() != ErrorKind::OutOfMemory;
        holds(&rt, "no memory is wanted", has_memory);
        drop(error);
    }
    rt.end_with_memory();
}

#[test]
fn help_is_asked_for(rt: HostRuntime) {
    let rt = Host::with_memory(rt);
    static ROWS: [(&[&str], &str); 5] = [
        (&["statem", "--help"], "trace"),
        (&["statem", "help"], "trace"),
        (&["statem", "run", "--help"], "script"),
        (&["statem", "trace", "--help"], "trace"),
        (&["statem", "pool", "--help"], "--workers <N>"),
    ];
    for (words, told) in &ROWS {
        let error = refusal_of(&rt, rt.alloc(), *words);
        same(&rt, "the status", &error.exit_code(), &0);
        same(&rt, "why", &error.kind(), &ErrorKind::DisplayHelp);
        let text = got(&rt, "memory", error.to_string(rt.alloc()));
        holds(&rt, "the help says it", text.contains(*told));
        drop(text);
        drop(error);
    }
    rt.end_with_memory();
}
