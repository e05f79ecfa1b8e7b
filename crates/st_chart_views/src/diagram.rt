//! A description as a diagram.

use crate::Drawing;
use crate::arrows::push_arrows;
use crate::labels::{push_label, push_rule};
use crate::nodes::{Node, push_node};
use crate::scope::Scope;
use crate::words::Words;
use st_chart::Chart;
use st_table::Rule;
use std::alloc::{AllocError, Global};

/// Adds what an entry of a state does.
fn push_entry(
    text: &mut String,
    drawing: Drawing,
    words: Words<'_>,
    name: &str,
    entry: &Rule,
) -> Result<(), AllocError> {
    let mut label = String::from_str(words.alloc, "entry")?;
    push_rule(&mut label, words, entry)?;
    match drawing {
        Drawing::Mermaid => {
            text.push_str("    ")?;
            push_node(text, drawing, Node::State(name))?;
            text.push_str(": ")?;
            push_label(text, drawing, label.as_str())?;
            text.push('\n')
        }
        Drawing::Dot => {
            text.push_str("\\n")?;
            push_label(text, drawing, label.as_str())
        }
    }
}

/// Adds a state, with what its entries do.
fn push_state(
    text: &mut String,
    drawing: Drawing,
    words: Words<'_>,
    name: &str,
    entries: &[Rule],
) -> Result<(), AllocError> {
    match drawing {
        Drawing::Mermaid => {
            write!(text, "    state \"{name}\" as ")?;
            push_node(text, drawing, Node::State(name))?;
            text.push('\n')?;
        }
        Drawing::Dot => write!(text, "    \"{name}\" [label=\"{name}")?,
    }
    for entry in entries {
        push_entry(text, drawing, words, name, entry)?;
    }
    text.push_str(match drawing {
        Drawing::Mermaid => "",
        Drawing::Dot => "\"]\n",
    })
}

/// Adds the whole of a diagram.
fn push_diagram(
    text: &mut String,
    drawing: Drawing,
    words: Words<'_>,
    chart: &Chart,
) -> Result<(), AllocError> {
    let start = Words {
        scope: Scope::Start,
        ..words
    };
    let entry = Words {
        scope: Scope::Entry,
        ..words
    };
    let any = chart.table.any.as_slice();
    text.push_str(match drawing {
        Drawing::Mermaid if any.is_empty() => "stateDiagram-v2\n",
        Drawing::Mermaid => "stateDiagram-v2\n    state \"any state\" as _any\n",
        Drawing::Dot => "digraph {\n    node [shape=box, style=rounded]\n",
    })?;
    push_arrows(
        text,
        drawing,
        start,
        Node::Start,
        chart.table.start.as_slice(),
    )?;
    let mut number = 0u32;
    for row in chart.table.states.as_slice() {
        let name = words.names.states.name(number);
        push_state(text, drawing, entry, name, row.entries.as_slice())?;
        push_arrows(
            text,
            drawing,
            words,
            Node::State(name),
            row.rules.as_slice(),
        )?;
        number = number.saturating_add(1);
    }
    push_arrows(text, drawing, words, Node::Any, any)?;
    text.push_str(match drawing {
        Drawing::Mermaid => "",
        Drawing::Dot => "}\n",
    })
}

/// Draws a description: its states with their entries, and for each rule an arrow, with the key, the guard in brackets,
/// and behind a stroke what the rule assigns and asks for. Rules of any state lead from a node of their own. It may find
/// no memory.
///
/// The text is a whole diagram in that language: what would mean something to it in a label is written otherwise, and so
/// is a state's name that Mermaid takes for another word.
pub fn draw(alloc: Global, chart: &Chart, drawing: Drawing) -> Result<Vec<u8>, AllocError> {
    let words = Words {
        alloc,
        names: &chart.names,
        scope: Scope::Event,
    };
    let mut text = String::new(alloc);
    push_diagram(&mut text, drawing, words, chart)?;
    Ok(text.into_bytes())
}
