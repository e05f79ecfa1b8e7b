//! A request that was sent to a machine.
ghost use Rattle.std.specs.Prelude.{◌≡◌};
ghost use Rattle.std.specs.Arc.{arc_value};
ghost use Rattle.st_lock.specs.Machines.{id_of};

use st_collection::Request;
use st_lock::{Machine, Module, Tag};
use std::marker::Model;
use std::sync::Arc;

/// A request that was sent to a machine: what its reply is asked for by. A contract sees its tag.
///
/// Manual: `request_id()`.
#[derive(Drop)]
pub struct RequestId<M: Module> {
    machine: Arc<Machine<M>>,
    tag: Tag,
}

impl<M: Module> Model for RequestId<M> {
    ghost use Rattle.std.specs.Prelude.{◌≡◌};
    ghost use Rattle.std.specs.Arc.{arc_value};
    ghost use Rattle.st_events.specs.declared.tag.Tag.{Tag};
    ghost use Rattle.st_lock.specs.Machines.{id_of};

    ghost Value = { Tag };

    ghost view = { λ id. id.tag };

    ghost invariant = { λ id. id_of (arc_value id.machine) ≡ id.tag.machine };
}

impl<M: Module> RequestId<M> {
    /// The request of a machine's call of this number.
    ///
    /// Ours: docs/DECISIONS.md, Requests.
    pub fn new(machine: Arc<Machine<M>>, number: u64) -> RequestId<M>
        ensures { result ≡ record { machine = id_of (arc_value machine); request = number } }
    {
        let tag = machine.tag(number);
        RequestId { machine, tag }
    }

    /// The machine.
    ///
    /// Ours: docs/DECISIONS.md, Requests.
    pub fn machine(&self) -> &Arc<Machine<M>>
        ensures { id_of (arc_value result.now) ≡ self.now.machine }
    {
        &self.machine
    }
}

impl<M: Module> Request for RequestId<M> {
    ghost tag_is = { λ id. id };

    fn tag(&self) -> Tag {
        self.tag
    }
}
