//! How a cell or a machine of a test begins.
use super::host::{Host, got, holds};
use super::kept::Kept;
use super::twin::{Twin, snapshot_of, started, steps};
use st_core::{Answer, Command, Entry, MachineId, MachineState, Refusal, Tag};
use st_events::Token;
use std::alloc::Global;
use std::process::Abort;

/// The machine's id.
pub const ID: MachineId = MachineId { slot: 0, serial: 1 };

/// The machine's token with the wake number 0.
pub const TOKEN_0: Token = Token {
    machine: ID,
    wake: 0,
};

/// The machine's token with the wake number 1.
pub const TOKEN_1: Token = Token {
    machine: ID,
    wake: 1,
};

/// The machine's token with the wake number 2.
pub const TOKEN_2: Token = Token {
    machine: ID,
    wake: 2,
};

/// The machine's token with the wake number 3.
pub const TOKEN_3: Token = Token {
    machine: ID,
    wake: 3,
};

/// The machine's token with the wake number 5.
pub const TOKEN_5: Token = Token {
    machine: ID,
    wake: 5,
};

/// The machine's token with the wake number 8.
pub const TOKEN_8: Token = Token {
    machine: ID,
    wake: 8,
};

/// The machine's request with the number 1.
pub const REQUEST_1: Tag = Tag {
    machine: ID,
    request: 1,
};

/// The machine's request with the number 2.
pub const REQUEST_2: Tag = Tag {
    machine: ID,
    request: 2,
};

/// The machine's request with the number 3.
pub const REQUEST_3: Tag = Tag {
    machine: ID,
    request: 3,
};

/// The machine's request with this number.
pub fn tag(number: u64) -> Tag {
    Tag::new(ID, number)
}

/// A call was refused for want of memory, and is made again.
pub fn is_made_again(rt: &Host<impl Abort>, refusal: Refusal) {
    holds(rt, "memory was refused", refusal == Refusal::NoMemory);
    rt.retry();
}

/// How a cell begins: the id of its machine, the number that the first event gets, the contents of the casts that were
/// posted, and the token, if it is issued one.
#[derive(Clone, Copy)]
pub struct Begin {
    pub id: MachineId,
    pub first: u64,
    pub contents: &'static [u32],
    pub wake: Option<Token>,
}

/// The machine has just started.
pub static AT_FIRST: Begin = Begin {
    id: ID,
    first: 1,
    contents: &[],
    wake: None,
};

/// Posts a cast to a machine.
fn casts<U: Twin>(rt: &Host<impl Abort>, machine: &mut U, content: u32) {
    let post = Command::Post(Entry::Cast, content);
    let answer = steps(rt, machine, &post);
    drop(post);
    let is_posted = matches!(&answer, Answer::Post(Ok(_)));
    drop(answer);
    holds(rt, "it is posted", is_posted);
}

/// A machine that has begun.
pub fn machine<U: Twin>(rt: &Host<impl Abort>, alloc: Global, begin: &Begin) -> U {
    let mut machine = started(rt, alloc, begin.id, begin.first);
    for content in begin.contents {
        casts(rt, &mut machine, *content);
    }
    machine
}

/// Makes a cell of a machine, which is equal to this base. Where it finds no memory, the machine comes back as it was,
/// and the call is made again.
fn cell_of<T: Kept>(
    rt: &Host<impl Abort>,
    alloc: Global,
    machine: T::Machine,
    base: &MachineState<u32, u32, u32>,
) -> (T, Option<Token>) {
    let refused = match T::begin(alloc, machine) {
        Ok(begun) => return begun,
        Err(refused) => refused,
    };
    is_made_again(rt, refused.refusal);
    let mut machine = refused.value;
    let now = snapshot_of(rt, &mut machine);
    let is_as_before = now == *base;
    drop(now);
    holds(rt, "a refusal changes nothing", is_as_before);
    got(
        rt,
        "one allocation alone is refused",
        T::begin(alloc, machine),
    )
}

/// A cell that has begun, and a machine that has begun alike.
pub fn begun<T: Kept>(rt: &Host<impl Abort>, alloc: Global, begin: &Begin) -> (T, T::Machine) {
    let mut twin: T::Machine = machine(rt, alloc, begin);
    let base = snapshot_of(rt, &mut twin);
    let (cell, token) = cell_of(rt, alloc, machine(rt, alloc, begin), &base);
    drop(base);
    holds(rt, "the token at first", token == begin.wake);
    (cell, twin)
}
