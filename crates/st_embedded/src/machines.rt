//! A table of machines.
ghost use Rattle.std.specs.Prelude.{◌≡◌, []};
ghost use Rattle.st_embedded.specs.Table.{IsEmptyTable};

use crate::Lists;
use indexmap::IndexMap;
use st_chart::Chart;
use st_core::Core;
use st_events::MachineId;
use st_hosted::HostAnswer;
use st_table::Interpreter;
use std::alloc::Global;

/// Machines by their numbers: those that a host answers for, and those that a description does. No number is given
/// twice, and a machine's id is made of its number.
///
/// Ours: docs/EMBEDDING.md.
#[derive(Drop)]
pub struct Machines {
    /// From where memory is taken.
    pub alloc: Global,
    /// The hosted machines.
    pub hosted: IndexMap<u64, Core<HostAnswer>>,
    /// The described machines.
    pub described: IndexMap<u64, Core<Interpreter>>,
    /// The descriptions, by number from 0 on.
    pub charts: Vec<Chart>,
    /// The number that the next machine gets.
    pub next_id: u64,
    /// What the latest start or turn reported. Who makes a start or a turn puts it here.
    pub lists: Lists,
}

/// The id of the machine of a number. The place is 0 for each.
///
/// Ours: docs/DECISIONS.md, Ids.
pub fn id_of(number: u64) -> MachineId
    ensures { result ≡ record { slot = 0; serial = number } }
{
    MachineId {
        slot: 0,
        serial: number,
    }
}

impl Machines {
    /// A table without machines. It takes no memory.
    pub fn new(alloc: Global) -> Machines
        ensures { IsEmptyTable result }
    {
        Machines {
            alloc,
            hosted: IndexMap::new(alloc),
            described: IndexMap::new(alloc),
            charts: Vec::new(alloc),
            next_id: 1,
            lists: Lists::new(alloc),
        }
    }
}
