//! Actions of rules.

use crate::expressions::{expression_in, nothing, operand_in};
use crate::lists::add_to;
use crate::members::{has_word, is_object_of};
use crate::naming::{symbol, text_in, timer};
use crate::reading::Reading;
use crate::scope::{Part, Scope};
use crate::tree::{Node, Shape};
use crate::{Ask, Expression, Operand, PlainList, Raised, Say, Timer};
use std::alloc::AllocError;

/// What an action does.
#[derive(Clone, Copy)]
enum Verb {
    Reply,
    Raise,
    Set,
    Cancel,
    Update,
    Send,
    Postpone,
    Hibernate,
}

/// What the key of an action says.
fn verb_of(key: &str) -> Option<Verb> {
    match key {
        "reply" => Some(Verb::Reply),
        "raise" => Some(Verb::Raise),
        "set" => Some(Verb::Set),
        "cancel" => Some(Verb::Cancel),
        "update" => Some(Verb::Update),
        "send" => Some(Verb::Send),
        "postpone" => Some(Verb::Postpone),
        "hibernate" => Some(Verb::Hibernate),
        _ => None,
    }
}

/// The members that an action may have.
fn words_of(verb: Verb) -> &'static str {
    match verb {
        Verb::Reply => "reply with to",
        Verb::Raise => "raise with as",
        Verb::Set => "set after say with",
        Verb::Cancel => "cancel",
        Verb::Update => "update say with",
        Verb::Send => "send with to",
        Verb::Postpone => "postpone",
        Verb::Hibernate => "hibernate",
    }
}

/// What an action cannot do in a part.
fn refusal(verb: Verb, part: Part) -> Option<&'static str> {
    match (verb, part) {
        (Verb::Postpone | Verb::Raise | Verb::Send, Part::Entry) => {
            Some(" cannot stand in an entry: it has no event, and inserts and sends none")
        }
        (Verb::Postpone, Part::Start) => Some(" cannot stand in a start: it has no event"),
        _ => None,
    }
}

/// Whether an action may stand in a part. If not, a fault is noted.
fn is_allowed(
    reading: &mut Reading<'_>,
    verb: Verb,
    part: Part,
    at: usize,
    key: &str,
) -> Result<bool, AllocError> {
    match refusal(verb, part) {
        Some(after) => {
            reading.wrong_name(at, "", key, after)?;
            Ok(false)
        }
        None => Ok(true),
    }
}

/// The argument of what is said.
fn said_with(
    reading: &mut Reading<'_>,
    part: Part,
    node: &Node<'_>,
) -> Result<Expression, AllocError> {
    match node.member("with") {
        Some(with) => expression_in(reading, Scope::now(part), with),
        None => Ok(nothing(reading.alloc)),
    }
}

/// What is said, by the member that has the symbol.
fn said(
    reading: &mut Reading<'_>,
    part: Part,
    node: &Node<'_>,
    member: &Node<'_>,
) -> Result<Say, AllocError> {
    let name = text_in(reading, member)?;
    let symbol = symbol(reading, member.at, name)?;
    let argument = said_with(reading, part, node)?;
    Ok(Say { symbol, argument })
}

/// What a time-out says: `timeout`, unless a member has another symbol.
fn said_by_timer(
    reading: &mut Reading<'_>,
    part: Part,
    node: &Node<'_>,
) -> Result<Say, AllocError> {
    match node.member("say") {
        Some(member) => said(reading, part, node, member),
        None => {
            let symbol = symbol(reading, node.at, "timeout")?;
            let argument = said_with(reading, part, node)?;
            Ok(Say { symbol, argument })
        }
    }
}

/// To whom is replied or sent.
fn to_whom(
    reading: &mut Reading<'_>,
    part: Part,
    node: &Node<'_>,
    verb: Verb,
) -> Result<Operand, AllocError> {
    match (node.member("to"), verb) {
        (Some(to), _) => operand_in(reading, Scope::now(part), to),
        (None, Verb::Reply) => Ok(Operand::Caller),
        (None, _) => {
            reading.wrong(node.at, "\"send\" wants a member \"to\"")?;
            Ok(Operand::Caller)
        }
    }
}

/// As what an event is raised.
fn raised(reading: &mut Reading<'_>, node: &Node<'_>) -> Result<Raised, AllocError> {
    let Some(kind) = node.member("as") else {
        return Ok(Raised::Internal);
    };
    match (kind.shape, kind.text) {
        (Shape::Text, "internal") => Ok(Raised::Internal),
        (Shape::Text, "cast") => Ok(Raised::Cast),
        (Shape::Text, "info") => Ok(Raised::Info),
        _ => {
            reading.wanted(kind, "\"internal\", \"cast\" or \"info\" is wanted here")?;
            Ok(Raised::Internal)
        }
    }
}

/// How long a time-out is to last.
fn duration(
    reading: &mut Reading<'_>,
    part: Part,
    node: &Node<'_>,
) -> Result<Expression, AllocError> {
    match node.member("after") {
        Some(after) => expression_in(reading, Scope::now(part), after),
        None => {
            let text = "\"set\" wants a member \"after\": so many milliseconds, or \"none\"";
            reading.wrong(node.at, text)?;
            Ok(nothing(reading.alloc))
        }
    }
}

/// The timer that a member names.
fn timer_in(reading: &mut Reading<'_>, member: &Node<'_>) -> Result<Timer, AllocError> {
    let name = text_in(reading, member)?;
    timer(reading, member.at, name)
}

/// Reads a setting of a timer.
fn setting(
    reading: &mut Reading<'_>,
    part: Part,
    node: &Node<'_>,
    member: &Node<'_>,
) -> Result<Ask, AllocError> {
    let timer = timer_in(reading, member)?;
    let after = duration(reading, part, node)?;
    let say = said_by_timer(reading, part, node)?;
    Ok(Ask::Set(timer, after, say))
}

/// Reads an action on a timer.
fn timer_ask(
    reading: &mut Reading<'_>,
    part: Part,
    node: &Node<'_>,
    member: &Node<'_>,
    verb: Verb,
) -> Result<Ask, AllocError> {
    match verb {
        Verb::Set => setting(reading, part, node, member),
        Verb::Update => {
            let timer = timer_in(reading, member)?;
            Ok(Ask::Update(timer, said_by_timer(reading, part, node)?))
        }
        _ => Ok(Ask::Cancel(timer_in(reading, member)?)),
    }
}

/// Reads an action that says something.
fn saying_ask(
    reading: &mut Reading<'_>,
    part: Part,
    node: &Node<'_>,
    member: &Node<'_>,
    verb: Verb,
) -> Result<Ask, AllocError> {
    if let Verb::Raise = verb {
        let raised = raised(reading, node)?;
        return Ok(Ask::Raise(raised, said(reading, part, node, member)?));
    }
    let to = to_whom(reading, part, node, verb)?;
    let say = said(reading, part, node, member)?;
    Ok(match verb {
        Verb::Reply => Ask::Reply(to, say),
        _ => Ask::Send(to, say),
    })
}

/// What a verb asks for that says all.
fn short_ask(verb: Verb) -> Ask {
    match verb {
        Verb::Postpone => Ask::Postpone,
        _ => Ask::Hibernate,
    }
}

/// What a verb asks for.
fn ask_of(
    reading: &mut Reading<'_>,
    part: Part,
    node: &Node<'_>,
    member: &Node<'_>,
    verb: Verb,
) -> Result<Ask, AllocError> {
    match verb {
        Verb::Reply | Verb::Raise | Verb::Send => saying_ask(reading, part, node, member, verb),
        Verb::Set | Verb::Cancel | Verb::Update => timer_ask(reading, part, node, member, verb),
        Verb::Postpone | Verb::Hibernate => Ok(short_ask(verb)),
    }
}

const ACTIONS: &str =
    "; there are \"reply\", \"raise\", \"set\", \"cancel\", \"update\", \"send\", \"postpone\" and \"hibernate\"";

/// The member of an object without a verb that was to be one.
fn meant_verb<'n, 'a>(node: &'n Node<'a>) -> Option<&'n Node<'a>> {
    for part in &node.parts {
        if !has_word("with to as after say", part.key) {
            return Some(part);
        }
    }
    None
}

/// Notes an object that is no action.
fn no_action(reading: &mut Reading<'_>, node: &Node<'_>) -> Result<(), AllocError> {
    match meant_verb(node) {
        Some(part) => reading.wrong_name(part.key_at, "no action ", part.key, ACTIONS),
        None => reading.wrong_name(node.at, "no action ", "{}", ACTIONS),
    }
}

/// The member of an action that says what it does.
fn verb_in<'n, 'a>(node: &'n Node<'a>) -> Option<(&'n Node<'a>, Verb)> {
    for part in &node.parts {
        if let Some(verb) = verb_of(part.key) {
            return Some((part, verb));
        }
    }
    None
}

/// Whether an action that is an object may stand where it stands, with what it has. If not, a fault is noted.
fn is_fit(
    reading: &mut Reading<'_>,
    part: Part,
    node: &Node<'_>,
    member: &Node<'_>,
    verb: Verb,
) -> Result<bool, AllocError> {
    is_object_of(reading, node, "this action has no ", words_of(verb))?;
    if let (Verb::Postpone | Verb::Hibernate, Shape::Null | Shape::False) = (verb, member.shape) {
        reading.wanted(member, "true is wanted here")?;
        return Ok(false);
    }
    is_allowed(reading, verb, part, member.key_at, member.key)
}

/// Reads an action that is an object.
fn object_action(
    reading: &mut Reading<'_>,
    part: Part,
    node: &Node<'_>,
    asks: &mut PlainList<Ask>,
) -> Result<(), AllocError> {
    let Some((member, verb)) = verb_in(node) else {
        return no_action(reading, node);
    };
    if !is_fit(reading, part, node, member, verb)? {
        return Ok(());
    }
    let ask = ask_of(reading, part, node, member, verb)?;
    add_to(asks, ask)
}

/// Reads an action that is a text.
fn text_action(
    reading: &mut Reading<'_>,
    part: Part,
    node: &Node<'_>,
    asks: &mut PlainList<Ask>,
) -> Result<(), AllocError> {
    let verb = match node.text {
        "postpone" => Verb::Postpone,
        "hibernate" => Verb::Hibernate,
        _ => {
            let text = "an action is \"postpone\", \"hibernate\" or an object";
            return reading.stands(node.at, text, node.text);
        }
    };
    if !is_allowed(reading, verb, part, node.at, node.text)? {
        return Ok(());
    }
    add_to(asks, short_ask(verb))
}

/// Reads an action.
fn action(
    reading: &mut Reading<'_>,
    part: Part,
    node: &Node<'_>,
    asks: &mut PlainList<Ask>,
) -> Result<(), AllocError> {
    match node.shape {
        Shape::Text => text_action(reading, part, node, asks),
        Shape::Object => object_action(reading, part, node, asks),
        _ => reading.wanted(node, "an action is wanted here: a text or an object"),
    }
}

/// Reads an action or a list of actions.
pub(crate) fn actions(
    reading: &mut Reading<'_>,
    part: Part,
    node: &Node<'_>,
    asks: &mut PlainList<Ask>,
) -> Result<(), AllocError> {
    let (Shape::List) = node.shape else {
        return action(reading, part, node, asks);
    };
    for one in &node.parts {
        if reading.faults.is_full() {
            break;
        }
        action(reading, part, one, asks)?;
    }
    Ok(())
}
