//! One value as it is kept.
use st_events::Timer;

/// A timer and its value.
#[derive(Drop)]
pub(crate) struct Bucket<V> {
    pub(crate) timer: Timer,
    pub(crate) value: V,
}
