//! A port that was opened.
ghost use Rattle.atomic_table.specs.Seated.{table_id_coded};
ghost use Rattle.st_post_counter.specs.Endpoint.{CounterId};

use std::marker::Model;

/// The machine's endpoint of this port is of this counter. No value of it is made.
pub struct Opened {
    pub port: u64,
    pub ghost counter: { CounterId } by { table_id_coded },
}

impl Model for Opened {
    ghost use base.Fml.{ftrue};

    ghost also_owns = { λ _. ftrue };
}
