//! Who counts the lamps that are lit.
use lamp_module::{Lamp, Light, Press};
use st_service::{JournalEntry, MachineId, Observer, report_of};
use std::alloc::{AllocError, Global};
use std::sync::Arc;
use std::sync::atomic::{AtomicU64, Ordering};

/// Counts how often a lamp was lit.
#[derive(Drop)]
pub struct Counting {
    lit: Arc<AtomicU64, Global>,
}

/// Who counts here.
pub fn counts(lit: &Arc<AtomicU64, Global>) -> Result<Counting, AllocError> {
    let lit = Arc::try_clone(lit)?;
    Ok(Counting { lit })
}

impl Observer<Lamp> for Counting {
    fn observes(&self) -> bool {
        true
    }

    fn observe(&self, _machine: MachineId, entry: &JournalEntry<Light, Press>) {
        match report_of(entry) {
            Some(report) if report.after == Light::On && report.before == Light::Off => {
                self.lit.fetch_add(1, Ordering::SeqCst);
            }
            _ => {}
        }
    }
}
