//! An endpoint of a counter.

use crate::seen::Seen;
use atomic_table::Seat;
use std::marker::Model;

/// An endpoint of a counter. It takes no bytes.
///
/// A contract sees which counter it is of, and what it has seen.
#[derive(Drop)]
pub struct Endpoint<T> {
    pub(crate) seat: Seat<(), Seen<T>>,
}

impl<T> Model for Endpoint<T> {
    ghost use Rattle.std.specs.Prelude.{◌≡◌, []};
    ghost use Rattle.st_post_counter.specs.Endpoint.{EndpointState};

    ghost Value = { EndpointState T };

    ghost view = { λ endpoint. record { counter = endpoint.seat.table_id; seen = endpoint.seat.me.0 } };

    ghost invariant = { λ endpoint. endpoint.seat.me.1 ≡ [] };
}
