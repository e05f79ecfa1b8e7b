//! The arrows of a diagram.

use crate::Drawing;
use crate::keys::push_key;
use crate::labels::{push_label, push_rule};
use crate::nodes::{Node, push_node};
use crate::scope::Scope;
use crate::words::Words;
use st_table::{Rule, Target};
use std::alloc::AllocError;

/// Adds the arrow of a rule with this label.
fn push_arrow(
    text: &mut String,
    drawing: Drawing,
    words: Words<'_>,
    from: Node<'_>,
    rule: &Rule,
    label: &str,
) -> Result<(), AllocError> {
    let to = match &rule.target {
        Target::Next(place) => Node::State(words.names.states.name(place.number)),
        Target::Stop(_) => Node::End,
        _ => from,
    };
    let (arrow, before, after) = match drawing {
        Drawing::Mermaid if label.is_empty() => (" --> ", "", "\n"),
        Drawing::Mermaid => (" --> ", ": ", "\n"),
        Drawing::Dot => (" -> ", " [label=\"", "\"]\n"),
    };
    text.push_str("    ")?;
    push_node(text, drawing, from)?;
    text.push_str(arrow)?;
    push_node(text, drawing, to)?;
    text.push_str(before)?;
    push_label(text, drawing, label)?;
    text.push_str(after)
}

/// Adds the arrows of rules of events, or of those rules of a start that begin a machine, which have no key.
pub(crate) fn push_arrows(
    text: &mut String,
    drawing: Drawing,
    words: Words<'_>,
    from: Node<'_>,
    rules: &[Rule],
) -> Result<(), AllocError> {
    for rule in rules {
        let mut label = String::new(words.alloc);
        match (words.scope, &rule.target) {
            (Scope::Start, Target::Next(_)) => {}
            (Scope::Start, _) => continue,
            _ => push_key(&mut label, words.names, rule)?,
        }
        push_rule(&mut label, words, rule)?;
        push_arrow(
            text,
            drawing,
            words,
            from,
            rule,
            label.as_str().trim_start(),
        )?;
    }
    Ok(())
}
