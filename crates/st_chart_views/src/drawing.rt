//! In which language a diagram is written.

/// The language of a diagram.
#[derive(Clone, Copy)]
pub enum Drawing {
    /// Mermaid: a `stateDiagram-v2`.
    Mermaid,
    /// DOT, for Graphviz: a `digraph`.
    Dot,
}
