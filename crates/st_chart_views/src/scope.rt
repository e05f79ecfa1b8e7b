//! Where a part of a description stands.

/// Where a part of a description stands. By this names in its expressions mean one thing or another.
#[derive(Clone, Copy)]
pub(crate) enum Scope {
    /// In a rule of a start.
    Start,
    /// In an entry.
    Entry,
    /// On the right side of an assignment of an entry.
    EntryUpdate,
    /// In a rule of events.
    Event,
    /// On the right side of an assignment of a rule of events.
    EventUpdate,
    /// In the last word.
    Last,
}

/// Where the right sides of assignments stand.
pub(crate) fn in_update(scope: Scope) -> Scope {
    match scope {
        Scope::Entry => Scope::EntryUpdate,
        Scope::Event => Scope::EventUpdate,
        other => other,
    }
}
