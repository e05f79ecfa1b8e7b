//! Lists of digits, one call at a time.

use super::host::{Host, holds, same};
use st_door::Digits;
use std::alloc::Global;
use std::process::Abort;

/// A list of these digits, which is made again.
fn digits_again(rt: &Host<impl Abort>, alloc: Global, digits: &[u8]) -> Digits {
    rt.retry();
    Digits::copied(alloc, digits).expect(rt, "memory")
}

/// A list of these digits.
pub fn digits(rt: &Host<impl Abort>, alloc: Global, digits: &[u8]) -> Digits {
    match Digits::copied(alloc, digits) {
        Ok(copy) => copy,
        Err(_) => digits_again(rt, alloc, digits),
    }
}

/// Sees that a list has these digits.
pub fn has_digits(rt: &Host<impl Abort>, list: &Digits, digits: &[u8]) {
    same(rt, "the digits", &list.as_slice(), &digits);
    same(rt, "how many digits there are", &list.len(), &digits.len());
}

/// Puts a digit at the end of a list again, which stayed as it was.
fn push_again(rt: &Host<impl Abort>, list: &mut Digits, digit: u8, before: &[u8]) {
    has_digits(rt, list, before);
    rt.retry();
    let pushed = list.push(digit).is_ok();
    holds(rt, "one allocation alone is refused", pushed);
}

/// Puts a digit at the end of a list. Where there is no memory, the list stays, and the call is made again.
fn push(rt: &Host<impl Abort>, list: &mut Digits, digit: u8, before: &[u8]) {
    has_digits(rt, list, before);
    if list.push(digit).is_err() {
        push_again(rt, list, digit, before);
    }
}

#[test]
fn digits_go_to_the_end(rt: HostRuntime) {
    let rt = Host::new(rt);
    let mut list = Digits::new(rt.alloc());
    push(&rt, &mut list, 4, &[]);
    push(&rt, &mut list, 0, &[4]);
    push(&rt, &mut list, 9, &[4, 0]);
    has_digits(&rt, &list, &[4, 0, 9]);
    drop(list);
    rt.end();
}

#[test]
fn digits_are_copied(rt: HostRuntime) {
    let rt = Host::new(rt);
    let list = digits(&rt, rt.alloc(), &[1, 2]);
    has_digits(&rt, &list, &[1, 2]);
    drop(list);
    rt.end();
}
