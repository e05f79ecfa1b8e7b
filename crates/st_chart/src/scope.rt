//! Where an expression stands.

/// In what an expression stands.
#[derive(Clone, Copy)]
pub(crate) enum Part {
    /// A rule of a start.
    Start,
    /// An entry of a state.
    Entry,
    /// A rule of calls.
    Call,
    /// Another rule of events.
    Event,
    /// The last word.
    Last,
}

/// Where an expression stands, and how a register's name is read there.
#[derive(Clone, Copy)]
pub(crate) struct Scope {
    pub(crate) part: Part,
    /// Whether a name is a register as it was before the rule.
    pub(crate) is_before: bool,
}

impl Scope {
    /// Where names are registers as they are.
    pub(crate) fn now(part: Part) -> Scope {
        Scope {
            part,
            is_before: false,
        }
    }

    /// The right side of an assignment.
    pub(crate) fn assignment(part: Part) -> Scope {
        Scope {
            part,
            is_before: matches!(part, Part::Entry | Part::Call | Part::Event),
        }
    }
}
