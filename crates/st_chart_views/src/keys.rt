//! The keys under which rules of events stand.

use st_chart::Vocabulary;
use st_events::Timer;
use st_table::{On, Rule};
use std::alloc::AllocError;

/// The word for a kind of events.
pub(crate) fn kind_word(on: On) -> &'static str {
    match on {
        On::Any => "*",
        On::Call => "call",
        On::Cast => "cast",
        On::Info => "info",
        On::Internal => "internal",
        _ => "timeout",
    }
}

/// The name of a time-out.
pub(crate) fn timer_name(names: &Vocabulary, timer: Timer) -> &str {
    match timer {
        Timer::Event => "event",
        Timer::State => "state",
        Timer::Named(number) => names.timers.name(number),
    }
}

/// The time-out that a rule waits for, if it waits for one.
pub(crate) fn waits_for(rule: &Rule) -> Option<Timer> {
    match rule.on {
        On::EventTimeout => Some(Timer::Event),
        On::StateTimeout => Some(Timer::State),
        On::NamedTimeout(number) => Some(Timer::Named(number)),
        _ => None,
    }
}

/// The name in a rule's key, which is `*` where there is none.
pub(crate) fn key_name<'a>(names: &'a Vocabulary, rule: &Rule) -> &'a str {
    match (waits_for(rule), rule.symbol) {
        (Some(timer), _) => timer_name(names, timer),
        (None, Some(symbol)) => names.symbols.name(symbol),
        (None, None) => "*",
    }
}

/// Adds a rule's key.
pub(crate) fn push_key(
    text: &mut String,
    names: &Vocabulary,
    rule: &Rule,
) -> Result<(), AllocError> {
    let kind = kind_word(rule.on);
    let name = key_name(names, rule);
    if kind == name {
        return text.push_str(kind);
    }
    write!(text, "{kind} {name}")
}
