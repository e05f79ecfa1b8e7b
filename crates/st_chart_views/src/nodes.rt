//! The nodes of a diagram.

use crate::Drawing;
use std::alloc::AllocError;

/// A node of a diagram.
#[derive(Clone, Copy)]
pub(crate) enum Node<'a> {
    /// From where a start comes.
    Start,
    /// Where a machine has ended.
    End,
    /// Any state.
    Any,
    /// The state of this name.
    State(&'a str),
}

/// Whether Mermaid takes a name for something else than a state.
fn is_taken(name: &str) -> bool {
    matches!(
        name,
        "accDescr"
            | "accTitle"
            | "class"
            | "classDef"
            | "click"
            | "default"
            | "direction"
            | "end"
            | "hide"
            | "href"
            | "linkStyle"
            | "note"
            | "root"
            | "root_end"
            | "root_start"
            | "scale"
            | "state"
            | "stateDiagram"
            | "style"
            | "title"
    )
}

/// Adds a node. In Mermaid a name that it takes for something else stands behind a sign with which no name begins.
pub(crate) fn push_node(
    text: &mut String,
    drawing: Drawing,
    node: Node<'_>,
) -> Result<(), AllocError> {
    match (drawing, node) {
        (Drawing::Mermaid, Node::State(name)) if is_taken(name) => write!(text, "_{name}"),
        (Drawing::Mermaid, Node::State(name)) => text.push_str(name),
        (Drawing::Mermaid, Node::Any) => text.push_str("_any"),
        (Drawing::Mermaid, _) => text.push_str("[*]"),
        (Drawing::Dot, Node::State(name)) => write!(text, "\"{name}\""),
        (Drawing::Dot, Node::Any) => text.push_str("\"(any state)\""),
        (Drawing::Dot, Node::Start) => text.push_str("\"(start)\""),
        (Drawing::Dot, Node::End) => text.push_str("\"(end)\""),
    }
}
