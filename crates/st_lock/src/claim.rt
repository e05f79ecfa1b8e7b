//! What is claimed of the inner state under a machine's lock.

use crate::machine::UnderLock;
use crate::opened::Opened;
use st_claim_lock::{Claimed, Tie};
use st_core::Module;
use std::marker::{Brand, PhantomData};

/// The port of whoever claims it, if it has one. No value of it is made.
pub struct Claim {
    pub opened: Option<Opened>,
}

/// There is an inner state with the endpoint that is claimed, if one is.
pub struct ByPort<M> {
    of: PhantomData<M>,
}

impl<M: Module> Tie<UnderLock<M>, Claim> for ByPort<M> {
    ghost use Rattle.st_lock.specs.Claims.{Fits, inner_of, newcomer};

    ghost fits = { λ under claimed. Fits (inner_of under) claimed };

    ghost first = { newcomer };
}

impl Claimed<Claim> for Brand {
    ghost use Rattle.st_lock.specs.Claims.{newcomer};

    ghost claim = { newcomer };
}
