//! Who is who among machines.
use st_service::MachineId;

/// The id of the machine of a slot, where none was let go.
pub fn id_at(slot: usize) -> MachineId {
    let serial = (slot as u64).saturating_add(1);
    MachineId { slot, serial }
}

/// The id of the first machine of a service.
pub const FIRST: MachineId = MachineId { slot: 0, serial: 1 };

/// The id of nobody.
pub const NOBODY: MachineId = MachineId {
    slot: 99_999,
    serial: 1,
};
