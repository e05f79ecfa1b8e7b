//! What described machines are told, by number.
ghost use Rattle.std.specs.Prelude.{◌≡◌, IfErr, IfOk, OnErr};
ghost use Rattle.st_embedded.specs.Described.{Begins, WhyNotBegun};
ghost use Rattle.st_embedded.specs.Table.{Same};

use crate::{Machines, id_of};
use st_answers::Report;
use st_core::{Core, Start};
use st_events::{PlainList, Reason, Refusal};
use st_table::{Interpreter, Place, Value};

/// What comes of the start of a described machine.
///
/// Manual: `start_ret()`.
#[derive(Drop)]
pub enum Begun {
    /// The machine's number, and what its start did.
    Running(u64, Report<Place>),
    /// The description ignores this start.
    Ignored,
    /// The start stopped for this reason.
    Stopped(Reason),
}

/// Starts a machine of a description with values, at a moment, in milliseconds.
///
/// Refused as `Core::start` refuses it, and with `Full` where no number is left. A refusal changes nothing.
///
/// Manual: `start/3`.
pub fn start_described(
    all: &mut Machines,
    interpreter: Interpreter,
    values: &PlainList<Value>,
    now: u64,
) -> Result<Begun, Refusal>
    ensures begins { IfOk result (λ begun. Begins interpreter values.now now all.old begun all.new) }
    ensures refusals { IfErr result (λ refusal. WhyNotBegun interpreter values.now all.old.next_id now refusal) }
    ensures unchanged { OnErr result (Same all.old.described all.new.described) }
    ensures rest { OnErr result (all.new ≡ record all.old { described = all.new.described }) }
{
    let number = all.next_id;
    if number == u64::MAX {
        return Err(Refusal::Full);
    }
    match Core::start(all.alloc, interpreter, id_of(number), values, now) {
        Ok(Start::Running(core, report)) => match all.described.insert(number, core) {
            Ok(_) => {
                all.next_id = number + 1;
                Ok(Begun::Running(number, report))
            }
            Err(_) => Err(Refusal::NoMemory),
        },
        Ok(Start::Ignored) => Ok(Begun::Ignored),
        Ok(Start::Stopped(reason)) => Ok(Begun::Stopped(reason)),
        Err(refused) => Err(refused.refusal),
    }
}
