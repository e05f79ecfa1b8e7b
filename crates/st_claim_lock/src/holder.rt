//! What a caller keeps of its claim between its critical sections.
use crate::hold::Hold;
use atomic_table::Seat;

/// A holder of a lock: it claims something of the value under the lock, and takes the value by this. It has no bytes.
#[derive(Drop)]
pub struct Holder<T, V> {
    pub(crate) seat: Seat<Option<T>, Hold<T, V>>,
}
