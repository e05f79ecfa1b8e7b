//! How the states of doors are named.
use crate::DoorState;
use crate::printing::state_name;
use st_trace::StateNames;

/// Names the states of doors.
#[derive(Drop)]
pub(crate) struct DoorStates;

impl StateNames<DoorState> for DoorStates {
    ghost use Rattle.st_doors.specs.Printing.{state_name_of};

    ghost name_is = { λ names state. state_name_of state };

    fn name(&self, state: DoorState) -> &str {
        state_name(state)
    }
}
