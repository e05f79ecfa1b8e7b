//! What a rule asks for, in a word and a name.

use crate::keys::timer_name;
use st_chart::Vocabulary;
use st_table::{Ask, Say};

/// The word for what is asked for.
pub(crate) fn ask_word(ask: &Ask) -> &'static str {
    match ask {
        Ask::Reply(_, _) => "reply",
        Ask::Postpone => "postpone",
        Ask::Raise(_, _) => "raise",
        Ask::Set(_, _, _) => "set",
        Ask::Cancel(_) => "cancel",
        Ask::Update(_, _) => "update",
        Ask::Send(_, _) => "send",
        Ask::Hibernate => "hibernate",
    }
}

/// What is said.
pub(crate) fn say_of(ask: &Ask) -> Option<&Say> {
    match ask {
        Ask::Reply(_, say) => Some(say),
        Ask::Raise(_, say) => Some(say),
        Ask::Set(_, _, say) => Some(say),
        Ask::Update(_, say) => Some(say),
        Ask::Send(_, say) => Some(say),
        _ => None,
    }
}

/// The name behind that word: of what is said, or of a time-out. `postpone` and `hibernate` have none.
pub(crate) fn ask_name<'a>(names: &'a Vocabulary, ask: &Ask) -> Option<&'a str> {
    match ask {
        Ask::Reply(_, say) => Some(names.symbols.name(say.symbol)),
        Ask::Raise(_, say) => Some(names.symbols.name(say.symbol)),
        Ask::Send(_, say) => Some(names.symbols.name(say.symbol)),
        Ask::Set(timer, _, _) => Some(timer_name(names, *timer)),
        Ask::Cancel(timer) => Some(timer_name(names, *timer)),
        Ask::Update(timer, _) => Some(timer_name(names, *timer)),
        _ => None,
    }
}
