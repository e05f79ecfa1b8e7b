//! Lists of rules as JSON.

use crate::keys::{key_name, kind_word, push_key};
use crate::page::{push_end, push_member, push_next};
use crate::rule_json::push_rule;
use crate::words::Words;
use st_table::Rule;
use std::alloc::AllocError;

/// Adds a member that is a rule, or a list of rules.
pub(crate) fn push_rules(
    text: &mut String,
    words: Words<'_>,
    depth: usize,
    key: &str,
    rules: &[Rule],
) -> Result<(), AllocError> {
    push_member(text, depth, key)?;
    if let [rule] = rules {
        return push_rule(text, words, rule);
    }
    text.push('[')?;
    for rule in rules {
        push_next(text, depth.saturating_add(1), false)?;
        push_rule(text, words, rule)?;
    }
    push_end(text, depth, ']')
}

/// How many rules at the beginning of a list stand under the key of this one.
fn under_key(words: Words<'_>, first: &Rule, rules: &[Rule]) -> usize {
    let names = words.names;
    for (place, rule) in rules.iter().enumerate() {
        let is_same = kind_word(rule.on) == kind_word(first.on)
            && key_name(names, rule) == key_name(names, first);
        if !is_same {
            return place;
        }
    }
    rules.len()
}

/// Adds the member `on`, if there are rules.
pub(crate) fn push_on(
    text: &mut String,
    words: Words<'_>,
    depth: usize,
    rules: &[Rule],
) -> Result<(), AllocError> {
    if rules.is_empty() {
        return Ok(());
    }
    push_member(text, depth, "on")?;
    text.push('{')?;
    let mut rest = rules;
    for _ in 0..rules.len() {
        let Some(first) = rest.first() else {
            break;
        };
        let count = under_key(words, first, rest);
        let mut key = String::new(words.alloc);
        push_key(&mut key, words.names, first)?;
        let keyed = rest.get(..count).unwrap_or(&[]);
        push_rules(text, words, depth.saturating_add(1), key.as_str(), keyed)?;
        rest = rest.get(count..).unwrap_or(&[]);
    }
    push_end(text, depth, '}')
}
