//! What becomes of a door's token.

/// What becomes of a door's token once it was issued.
#[derive(Clone, Copy)]
pub enum Scheduling {
    /// It is put on a tray.
    OnTray,
    /// It comes back, since the tray is closed.
    ComesBack,
    /// The door is served at once.
    AtOnce,
    /// The door is served at once, and the reply to the first request is collected.
    AtOnceAndCollected,
}
