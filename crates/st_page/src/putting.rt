//! What came of a call is put into the room for it.
ghost use Rattle.std.specs.Prelude.{◌+◌, ◌≡◌, ◌<◌, ◌≤◌, ◌⊎◌, drop, length, take};

use crate::codes::{DONE, NO_ROOM};
use crate::told::Told;

/// Puts a text, and faults behind it, at the front of the room.
pub(crate) fn put(text: &[u8], faults: &[u8], status: u8, output: &mut [u8], told: &mut Told) -> u32
    ensures text { result ≡ 0 → take told.new.length output.new ≡ text.now }
    ensures faults { result ≡ 0 → take told.new.faults (drop told.new.length output.new) ≡ faults.now }
    ensures sizes { (told.new.length ≡ length text.now) × (told.new.faults ≡ length faults.now) × (told.new.status ≡ status) }
    ensures room { result ≡ 0 → told.new.length + told.new.faults ≤ length output.new }

    ensures answers { (result ≡ 0) ⊎ (result ≡ 3) }
    ensures no_room { result ≡ 3 → length output.old < told.new.length + told.new.faults }
{
    told.status = u64::from(status);
    told.length = text.len() as u64;
    told.faults = faults.len() as u64;
    if output.len() < text.len() {
        return NO_ROOM;
    }
    let (front, rest) = output.split_at_mut(text.len());
    if rest.len() < faults.len() {
        return NO_ROOM;
    }
    front.copy_from_slice(text);
    rest[..faults.len()].copy_from_slice(faults);
    DONE
}
