//! What a ticker's thread does next.

use st_hall::MachineId;

/// What a ticker's thread does next.
#[derive(Clone, Copy)]
pub(crate) enum Next {
    /// It ends.
    End,
    /// It visits this machine, which was noted as due.
    Visit(MachineId),
    /// It sleeps so many milliseconds, or until it is woken.
    Doze(u64),
    /// It sleeps until it is woken.
    Sleep,
}
