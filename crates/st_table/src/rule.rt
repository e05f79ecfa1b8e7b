//! The rules of a table.

use crate::{Ask, On, Target, Test, Update};
use st_events::PlainList;

/// A rule: when it is taken, and what comes of it. Manual: one clause of `Module:handle_event/4`.
#[derive(Drop)]
pub struct Rule {
    /// The kind of the events. In an entry, and at a start, nobody looks at it.
    pub on: On,
    /// The number of their symbol; without one, any. In an entry, and at a start, nobody looks at it.
    pub symbol: Option<u32>,
    /// What has to hold, all of it.
    pub guard: PlainList<Test>,
    /// What registers are given, in order. Without any the data stay.
    pub updates: PlainList<Update>,
    /// Where it leads.
    pub target: Target,
    /// What is asked for, in order. It sees the registers after the updates.
    pub asks: PlainList<Ask>,
}
