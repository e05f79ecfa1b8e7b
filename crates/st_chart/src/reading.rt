//! What is known while a description is read.

use crate::faults::Faults;
use crate::places::Places;
use crate::tree::{Node, Shape};
use crate::wording::quoted;
use crate::{Fault, PlainList, Vocabulary};
use std::alloc::{AllocError, Global};

/// What is known while a description is read.
#[derive(Drop)]
pub(crate) struct Reading<'a> {
    pub(crate) alloc: Global,
    pub(crate) places: Places<'a>,
    pub(crate) faults: Faults,
    pub(crate) names: Vocabulary,
    /// How many rules were read.
    pub(crate) rules: usize,
}

/// What is wanted, and what stands there.
fn standing(alloc: Global, text: &str, word: &str) -> Result<String, AllocError> {
    if word.is_empty() {
        return format!(in alloc; "{text}; there the text ends");
    }
    let word = quoted(alloc, word)?;
    format!(in alloc; "{text}; there stands {word}")
}

/// How a value is shown.
fn shown<'n>(node: &'n Node<'_>) -> &'n str {
    match node.shape {
        Shape::Null => "null",
        Shape::False => "false",
        Shape::True => "true",
        Shape::List => "[",
        Shape::Object => "{",
        _ if node.text.is_empty() => "''",
        _ => node.text,
    }
}

impl<'a> Reading<'a> {
    pub(crate) fn new(alloc: Global, bytes: &'a [u8]) -> Result<Reading<'a>, AllocError> {
        Ok(Reading {
            alloc,
            places: Places::new(alloc, bytes)?,
            faults: Faults::new(alloc),
            names: Vocabulary::new(alloc),
            rules: 0,
        })
    }

    /// The names, where all was read.
    pub(crate) fn into_names(self) -> Vocabulary {
        self.names
    }

    /// The faults in the order of their places.
    pub(crate) fn told(self, alloc: Global) -> Result<PlainList<Fault>, AllocError> {
        let Reading { places, faults, .. } = self;
        faults.told(alloc, &places)
    }

    /// Notes a fault.
    pub(crate) fn wrong(&mut self, at: usize, text: &str) -> Result<(), AllocError> {
        if !self.faults.wants(at) {
            return Ok(());
        }
        let text = String::from_str(self.alloc, text)?;
        self.faults.note(at, text)
    }

    /// Notes a fault that names something.
    pub(crate) fn wrong_name(
        &mut self,
        at: usize,
        before: &str,
        name: &str,
        after: &str,
    ) -> Result<(), AllocError> {
        if !self.faults.wants(at) {
            return Ok(());
        }
        let name = quoted(self.alloc, name)?;
        let text = format!(in self.alloc; "{before}{name}{after}")?;
        self.faults.note(at, text)
    }

    /// Notes what is wanted in the place of a word, which is empty at the end of a text.
    pub(crate) fn stands(&mut self, at: usize, text: &str, word: &str) -> Result<(), AllocError> {
        if !self.faults.wants(at) {
            return Ok(());
        }
        let text = standing(self.alloc, text, word)?;
        self.faults.note(at, text)
    }

    /// Notes what is wanted in the place of a value.
    pub(crate) fn wanted(&mut self, node: &Node<'_>, text: &str) -> Result<(), AllocError> {
        self.stands(node.at, text, shown(node))
    }

    /// Notes that a name is not there, with those that are.
    pub(crate) fn unknown(
        &mut self,
        at: usize,
        kind: &str,
        name: &str,
        listed: String,
    ) -> Result<(), AllocError> {
        let name = quoted(self.alloc, name)?;
        let text = format!(in self.alloc; "no {kind} {name}; {listed}")?;
        if !self.faults.wants(at) {
            return Ok(());
        }
        self.faults.note(at, text)
    }

    /// Notes that something stands a second time.
    pub(crate) fn double(&mut self, at: usize, name: &str, first: usize) -> Result<(), AllocError> {
        if !self.faults.wants(at) {
            return Ok(());
        }
        let spot = self.places.spot(first);
        let (line, column) = (spot.line, spot.column);
        let name = quoted(self.alloc, name)?;
        let text = format!(in self.alloc;
            "{name} stands here a second time; the first is at {line}:{column}"
        )?;
        self.faults.note(at, text)
    }
}
