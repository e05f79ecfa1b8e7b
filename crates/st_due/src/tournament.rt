//! A tournament: of some places, each with a machine or without one, it knows which machine is due first.
ghost use Rattle.std.specs.Prelude.{◌≡◌, ◌<◌, [], length, None, slice_set, replicate, IfOk};
ghost use Rattle.st_due.specs.Tournament.{earliest};

use crate::DueMachine;
use crate::contender::Contender;
use std::alloc::{AllocError, Global};
use std::marker::Model;

/// Places, each with a machine or without one. It knows which of the machines is due first.
///
/// A change at a place takes as many steps as the number of places has bits, or fewer: it goes on only as long as it
/// changes who comes first.
#[derive(Drop)]
pub(crate) struct Tournament {
    // The first of all is at 1. The node at `k` is the first of those at `2 * k` and `2 * k + 1`, and the places are
    // those from `places` on. The node at 0 is not used.
    nodes: Vec<Contender>,
    places: usize,
}

impl Model for Tournament {
    ghost use Rattle.std.specs.Prelude.{List, Option, map, drop};
    ghost use Rattle.st_due.specs.declared.due_machine.DueMachine.{DueMachine};
    ghost use Rattle.st_due.specs.Tournament.{seen, IsPlayed};

    ghost Value = { List (Option DueMachine) };

    ghost view = { λ tournament. drop tournament.places (map seen tournament.nodes.items) };

    ghost invariant = { λ tournament. IsPlayed (map seen tournament.nodes.items) tournament.places };
}

impl Tournament {
    /// No places. It takes no memory.
    pub(crate) fn new(alloc: Global) -> Tournament
        ensures { result ≡ [] }
    {
        Tournament {
            nodes: Vec::new(alloc),
            places: 0,
        }
    }

    /// So many places, each without a machine.
    pub(crate) fn with_places(alloc: Global, places: usize) -> Result<Tournament, AllocError>
        ensures { IfOk result (λ tournament. tournament ≡ replicate places None) }
    {
        let count = places.checked_mul(2).ok_or(AllocError)?;
        let nodes = vec![in alloc; Contender::new(None); count]?;
        Ok(Tournament { nodes, places })
    }

    /// How many places there are.
    pub(crate) fn len(&self) -> usize
        ensures { result ≡ length self.now }
    {
        self.places
    }

    /// The machine that is due first.
    pub(crate) fn first(&self) -> Option<DueMachine>
        ensures { result ≡ earliest self.now }
    {
        if self.places == 0 {
            return None;
        }
        self.nodes[1].due()
    }

    /// Puts a machine at a place, or leaves the place without one.
    pub(crate) fn set(&mut self, place: usize, machine: Option<DueMachine>)
        requires { place < length self.old }
        ensures { self.new ≡ slice_set self.old place machine }
    {
        let mut node = self.places + place;
        let mut first = Contender::new(machine);
        self.nodes[node] = first;
        while node > 1 {
            let above = node / 2;
            let beside = 2 * above + (2 * above + 1 - node);
            first = first.earlier(self.nodes[beside]);
            node = above;
            if first.is(self.nodes[node]) {
                break;
            }
            self.nodes[node] = first;
        }
    }
}
