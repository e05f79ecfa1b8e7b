//! The lines of a diagram.
ghost use Rattle.std.specs.Prelude.{◌≡◌, IfOk, string_bytes};
ghost use Rattle.st_diagram.specs.Lines.{timer_text, kind_text, event_text, end_text, target_text, line_of, arrow_line};

use crate::DiagramNames;
use crate::arrow::Arrow;
use crate::notation::Notation;
use st_events::{Kind, Timer};
use std::alloc::{AllocError, Global};

/// Which time-out an event is.
fn timer(alloc: Global, timer: Timer) -> Result<String, AllocError>
    ensures { IfOk result (λ text. string_bytes text ≡ timer_text timer) }
{
    match timer {
        Timer::Event => String::from_str(alloc, "timeout"),
        Timer::State => String::from_str(alloc, "state_timeout"),
        Timer::Named(name) => format!(in alloc; "timeout {name}"),
    }
}

/// What kind of event it is.
fn kind(alloc: Global, kind: Kind) -> Result<String, AllocError>
    ensures { IfOk result (λ text. string_bytes text ≡ kind_text kind) }
{
    match kind {
        Kind::Call(_) => String::from_str(alloc, "call"),
        Kind::Cast => String::from_str(alloc, "cast"),
        Kind::Info => String::from_str(alloc, "info"),
        Kind::Timeout(which) => timer(alloc, which),
        Kind::Internal => String::from_str(alloc, "internal"),
    }
}

/// An event: its kind and its content.
fn event<S: Copy, C, N: DiagramNames<S, C>>(
    alloc: Global,
    names: &N,
    event: &(Kind, C),
) -> Result<String, AllocError>
    ensures { IfOk result (λ text. string_bytes text ≡ event_text (N.content_is names.now) event.now) }
{
    let kind = kind(alloc, event.0)?;
    let content = names.content(alloc, &event.1)?;
    format!(in alloc; "{kind} {content}")
}

/// What stands for the end.
fn end(notation: Notation) -> &'static str
    ensures { result.now ≡ end_text notation }
{
    match notation {
        Notation::Mermaid => "[*]",
        Notation::Dot => "end",
    }
}

/// Where an arrow leads.
fn target<S: Copy, C, N: DiagramNames<S, C>>(
    alloc: Global,
    notation: Notation,
    names: &N,
    target: Option<S>,
) -> Result<String, AllocError>
    ensures { IfOk result (λ text. string_bytes text ≡ target_text notation (N.state_is names.now) target) }
{
    match target {
        Some(state) => names.state(alloc, state),
        None => String::from_str(alloc, end(notation)),
    }
}

/// The line between two nodes, with what stands at it.
fn between(
    alloc: Global,
    notation: Notation,
    before: &str,
    after: &str,
    event: &str,
    marks: &str,
) -> Result<String, AllocError>
    ensures { IfOk result (λ text. string_bytes text ≡ line_of notation before.now after.now event.now marks.now) }
{
    match notation {
        Notation::Mermaid => format!(in alloc; "    {before} --> {after}: {event}{marks}\n"),
        Notation::Dot => {
            format!(in alloc; "    \"{before}\" -> \"{after}\" [label=\"{event}{marks}\"];\n")
        }
    }
}

/// The line of an arrow.
pub(crate) fn line<S: Copy + Drop, C, N: DiagramNames<S, C>>(
    alloc: Global,
    notation: Notation,
    names: &N,
    state: S,
    told: &(Kind, C),
    arrow: &Arrow<S>,
) -> Result<String, AllocError>
    ensures { IfOk result (λ text. string_bytes text ≡ arrow_line notation (N.state_is names.now) (N.content_is names.now) state told.now arrow.now) }
{
    let before = names.state(alloc, state)?;
    let after = target(alloc, notation, names, arrow.target)?;
    let event = event(alloc, names, told)?;
    between(
        alloc,
        notation,
        before.as_str(),
        after.as_str(),
        event.as_str(),
        arrow.marks.as_str(),
    )
}
