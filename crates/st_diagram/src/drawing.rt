//! The diagrams: a line for each state and event that is not ignored.
ghost use Rattle.std.specs.Prelude.{◌≡◌, IfOk, string_bytes};
ghost use Rattle.st_diagram.specs.Diagram.{head_of, first_line, begin_of, tail_of, row_of, rows_of, diagram_of, mermaid_of, dot_of};

use crate::DiagramNames;
use crate::arrow::arrow_after;
use crate::lines::line;
use crate::notation::Notation;
use st_events::{Kind, Module};
use std::alloc::{AllocError, Global};

/// The line of an event in a state, or nothing where it is ignored.
fn row<M: Module, N: DiagramNames<M::State, M::Content>>(
    alloc: Global,
    notation: Notation,
    module: &M,
    names: &N,
    held: &M::Data,
    state: M::State,
    event: &(Kind, M::Content),
) -> Result<String, AllocError>
    ensures { IfOk result (λ text. string_bytes text ≡ row_of notation (N.state_is names.now) (N.content_is names.now) (M.handle_is «module».now) held.now state event.now) }
{
    let outcome = module.handle(alloc, event.0, &event.1, state, held)?;
    match arrow_after(alloc, state, outcome)? {
        Some(arrow) => line(alloc, notation, names, state, event, &arrow),
        None => Ok(String::new(alloc)),
    }
}

/// The lines of the events in a state.
fn rows<M: Module, N: DiagramNames<M::State, M::Content>>(
    alloc: Global,
    notation: Notation,
    module: &M,
    names: &N,
    held: &M::Data,
    state: M::State,
    events: &[(Kind, M::Content)],
) -> Result<String, AllocError>
    ensures { IfOk result (λ text. string_bytes text ≡ rows_of notation (N.state_is names.now) (N.content_is names.now) (M.handle_is «module».now) held.now events.now state) }
{
    let mut text = String::new(alloc);
    for event in events {
        let line = row(alloc, notation, module, names, held, state, event)?;
        text.push_str(line.as_str())?;
    }
    Ok(text)
}

/// The line of the state in which a machine begins.
fn first<S: Copy, C, N: DiagramNames<S, C>>(
    alloc: Global,
    notation: Notation,
    names: &N,
    state: S,
) -> Result<String, AllocError>
    ensures { IfOk result (λ text. string_bytes text ≡ first_line notation (N.state_is names.now state)) }
{
    let name = names.state(alloc, state)?;
    match notation {
        Notation::Mermaid => format!(in alloc; "    [*] --> {name}\n"),
        Notation::Dot => format!(in alloc; "    start -> \"{name}\";\n"),
    }
}

/// The first words of a diagram.
fn head(notation: Notation) -> &'static str
    ensures { result.now ≡ head_of notation }
{
    match notation {
        Notation::Mermaid => "stateDiagram-v2\n",
        Notation::Dot => "digraph {\n",
    }
}

/// The last words of a diagram.
fn tail(notation: Notation) -> &'static str
    ensures { result.now ≡ tail_of notation }
{
    match notation {
        Notation::Mermaid => "",
        Notation::Dot => "}\n",
    }
}

/// The first words, and the line of the first state, if there is one.
fn begin<S: Copy, C, N: DiagramNames<S, C>>(
    alloc: Global,
    notation: Notation,
    names: &N,
    states: &[S],
) -> Result<String, AllocError>
    ensures { IfOk result (λ text. string_bytes text ≡ begin_of notation (N.state_is names.now) states.now) }
{
    let mut text = String::from_str(alloc, head(notation))?;
    if let Some(state) = states.first() {
        let line = first(alloc, notation, names, *state)?;
        text.push_str(line.as_str())?;
    }
    Ok(text)
}

/// A diagram in a language.
fn diagram<M: Module, N: DiagramNames<M::State, M::Content>>(
    alloc: Global,
    notation: Notation,
    module: &M,
    names: &N,
    held: &M::Data,
    states: &[M::State],
    events: &[(Kind, M::Content)],
) -> Result<String, AllocError>
    ensures { IfOk result (λ text. string_bytes text ≡ diagram_of notation (N.state_is names.now) (N.content_is names.now) (M.handle_is «module».now) held.now states.now events.now) }
{
    let mut text = begin(alloc, notation, names, states)?;
    for state in states {
        let lines = rows(alloc, notation, module, names, held, *state, events)?;
        text.push_str(lines.as_str())?;
    }
    text.push_str(tail(notation))?;
    Ok(text)
}

/// A module as a Mermaid state diagram: for each of the states and each of the events the arrow of what `handle`
/// answers to the event in the state, with these data. What it ignores has no arrow. The first of the states is drawn as
/// the one in which a machine begins, an end as `[*]`.
///
/// Where there is no memory there is no text; the module is only asked.
///
/// Ours: the module's `handle` is asked, and nothing is run.
pub fn mermaid<M: Module, N: DiagramNames<M::State, M::Content>>(
    alloc: Global,
    module: &M,
    names: &N,
    held: &M::Data,
    states: &[M::State],
    events: &[(Kind, M::Content)],
) -> Result<String, AllocError>
    ensures { IfOk result (λ text. string_bytes text ≡ mermaid_of (N.state_is names.now) (N.content_is names.now) (M.handle_is «module».now) held.now states.now events.now) }
{
    diagram(
        alloc,
        Notation::Mermaid,
        module,
        names,
        held,
        states,
        events,
    )
}

/// A module as a directed graph in DOT, for Graphviz: what `mermaid` draws, with a node `start` before the first of the
/// states, and a node `end` for the end.
///
/// Where there is no memory there is no text; the module is only asked.
///
/// Ours: the module's `handle` is asked, and nothing is run.
pub fn dot<M: Module, N: DiagramNames<M::State, M::Content>>(
    alloc: Global,
    module: &M,
    names: &N,
    held: &M::Data,
    states: &[M::State],
    events: &[(Kind, M::Content)],
) -> Result<String, AllocError>
    ensures { IfOk result (λ text. string_bytes text ≡ dot_of (N.state_is names.now) (N.content_is names.now) (M.handle_is «module».now) held.now states.now events.now) }
{
    diagram(alloc, Notation::Dot, module, names, held, states, events)
}
