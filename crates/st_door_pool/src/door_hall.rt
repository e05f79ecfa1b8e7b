//! The hall of a script's doors, as its workers serve it.
ghost use Rattle.std.specs.Prelude.{◌≡◌, IfSome};

use crate::Runtime;
use st_door::{Door, DoorContent};
use st_hall::{Hall, Hand, Refusal, Registry, Token};
use st_pool::Machines;
use std::alloc::{AllocError, Global};
use std::sync::atomic::{AtomicBool, Ordering};

/// The hall of a script's doors. Where a turn of theirs or a delivery finds no memory, the script is to end: that is noted,
/// and the token comes to rest, so that the same is not asked for again and again.
#[derive(Drop)]
pub(crate) struct DoorHall<R: Runtime> {
    pub(crate) hall: Hall<Door, R>,
    out_of_memory: AtomicBool,
}

impl<R: Runtime> DoorHall<R> {
    /// No door yet. It takes no memory. Refused where no random key can be drawn for the names.
    pub(crate) fn new(rt: R, alloc: Global) -> Result<DoorHall<R>, AllocError> {
        let registry = Registry::new_keyed(&rt, alloc)?;
        Ok(DoorHall {
            hall: Hall::new(rt, registry),
            out_of_memory: AtomicBool::new(false),
        })
    }

    /// Whether any turn or delivery found no memory.
    pub(crate) fn is_out_of_memory(&self) -> bool {
        self.out_of_memory.load(Ordering::SeqCst)
    }
}

impl<R: Runtime> Machines for DoorHall<R> {
    type Content = DoorContent;

    ghost served = { λ token now answer. IfSome answer (λ back. back ≡ token) };

    fn turn(&self, token: Token, now: u64, hand: &mut Hand<DoorContent>) -> Option<Token> {
        let served = self.hall.serve(token, now, hand);
        if served.refusal == Some(Refusal::NoMemory) {
            self.out_of_memory.store(true, Ordering::SeqCst);
            // The script ends, and with it what is on its way.
            hand.message = None;
            return None;
        }
        served.token
    }
}
