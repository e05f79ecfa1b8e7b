//! Who schedules a door's token.
use super::scheduling::Scheduling;
use super::tray::Tray;
use st_client::{Machine, Token, Wake};
use st_door::Door;
use std::alloc::Global;
use std::process::Abort;
use std::sync::{Arc, Wait};

/// Who is handed a door's token: a tray, which takes it or not. Where there is a door to be served, it is served in place of
/// that; and where its reply is taken, that to the first request is collected then.
#[derive(Drop)]
pub struct Waker {
    pub tray: Tray,
    served: Option<Arc<Machine<Door>>>,
    is_taken: bool,
}

/// Who schedules the token of a door in this way.
pub fn waker_for(
    rt: &impl Abort,
    alloc: Global,
    machine: &Arc<Machine<Door>>,
    scheduling: Scheduling,
) -> Waker {
    let (is_open, is_served, is_taken) = match scheduling {
        Scheduling::OnTray => (true, false, false),
        Scheduling::ComesBack => (false, false, false),
        Scheduling::AtOnce => (false, true, false),
        Scheduling::AtOnceAndCollected => (false, true, true),
    };
    let served = if is_served {
        Some(Arc::try_clone(machine).expect(rt, "an owner"))
    } else {
        None
    };
    Waker {
        tray: Tray::new(alloc, is_open),
        served,
        is_taken,
    }
}

impl Wake for Waker {
    fn wake<R: Wait>(&self, rt: &R, token: Token) -> Result<(), Token> {
        let Some(machine) = &self.served else {
            return self.tray.wake(rt, token);
        };
        match machine.turn(rt, token, 5) {
            Ok(_) => {
                if self.is_taken {
                    drop(machine.collect(rt, machine.tag(1)));
                }
                Ok(())
            }
            Err(refused) => Err(refused.value),
        }
    }
}
