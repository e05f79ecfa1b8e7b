//! Values and signals in lines of events.

use crate::given::Given;
use crate::naming::{is_name, tell_no_symbol};
use crate::obeying::is_end;
use crate::page::Page;
use crate::word::Word;
use crate::world::World;
use st_events::{MachineId, PlainList, PlainText};
use st_table::{Signal, Value};
use std::alloc::AllocError;

/// The id of the machine at a place, also of one that is not there.
pub(crate) fn id_at(slot: usize) -> MachineId {
    let serial = (slot as u64).saturating_add(1);
    MachineId { slot, serial }
}

impl World {
    /// Gives a place to the machine that a word names, where it names one and has none.
    fn mention(&mut self, word: Word<'_>) -> Result<(), AllocError> {
        let name = word.plain();
        if is_name(name) && name != "none" {
            self.names.number(self.alloc, name)?;
        }
        Ok(())
    }

    /// The value of a word that is no text.
    fn plain_value(&self, word: &str) -> Option<Value> {
        if word == "none" {
            return Some(Value::Nothing);
        }
        if word.as_bytes().first().is_some_and(u8::is_ascii_digit) {
            return Some(Value::Number(word.parse::<u64>().ok()?));
        }
        Some(Value::Machine(id_at(self.names.find(word)? as usize)))
    }

    /// The value of a word. Where there is none, that is told.
    fn value(&self, word: Word<'_>, page: &mut Page) -> Option<Value> {
        match word {
            Word::Text(text) => {
                let text = PlainText::copied(page.alloc, text).ok();
                page.failed = page.failed || text.is_none();
                Some(Value::Text(text?))
            }
            Word::Plain(word) => {
                let value = self.plain_value(word);
                if value.is_none() {
                    let wanted = " is no number below 2^64, no 'text', not none and no machine";
                    page.fault_of("", word, wanted);
                }
                value
            }
        }
    }

    /// The signal that words are, for the machine at a place. What is wrong with it is told.
    pub(crate) fn signal(
        &self,
        place: usize,
        words: &[Word<'_>],
        page: &mut Page,
    ) -> Option<Signal> {
        let Some((first, rest)) = words.split_first() else {
            page.fault("a symbol is wanted");
            return None;
        };
        let book = self.speaker(place)?.book;
        let Some(symbol) = book.symbol(first.plain()) else {
            let symbols = &book.chart.names.symbols;
            tell_no_symbol(first.plain(), symbols, book.own_symbols, page);
            return None;
        };
        let Some((second, rest)) = rest.split_first() else {
            let argument = Value::Nothing;
            return Some(Signal { symbol, argument });
        };
        let argument = self.value(*second, page)?;
        is_end(rest, page).then_some(Signal { symbol, argument })
    }

    /// What a machine is started with by words, which may name machines that are started later. What is wrong with it is told.
    pub(crate) fn given(
        &mut self,
        words: &[Word<'_>],
        page: &mut Page,
    ) -> Result<Option<Given>, AllocError> {
        let mut values = PlainList::new(self.alloc);
        let mut texts = Vec::new(self.alloc);
        for word in words {
            self.mention(*word)?;
            let Some(value) = self.value(*word, page) else {
                return Ok(None);
            };
            values.push(value)?;
            texts.push(word.written(self.alloc)?)?;
        }
        Ok(Some(Given { values, texts }))
    }
}
