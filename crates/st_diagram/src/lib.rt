//! A callback module as a state diagram, drawn by calling it, and a journal as a sequence diagram.
//! It knows nothing of live machines: a callback is a function, so what it answers to a state, an event and data can be
//! asked, and a journal is handed in.
#![tactic(auto)]

mod arrow;
mod diagram_names;
mod drawing;
mod entries;
mod lines;
mod marks;
mod notation;
mod participants;
mod sequencing;
mod turns;

pub use diagram_names::DiagramNames;
pub use drawing::{dot, mermaid};
pub use sequencing::sequence;
