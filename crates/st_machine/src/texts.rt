//! Texts by number, of which contracts see the bytes.
ghost use Rattle.std.specs.Prelude.{◌≡◌};
ghost use Rattle.st_machine.specs.Texts.{text_at};

use st_chart::Names;
use st_events::{PlainList, PlainText};
use st_table::Place;
use st_trace::StateNames;
use std::alloc::{AllocError, Global};

/// Names by number, of which contracts see the bytes.
#[derive(Drop)]
pub(crate) struct Texts {
    texts: PlainList<PlainText>,
}

impl Texts {
    /// Copies of names. It may find no memory.
    pub(crate) fn copied(alloc: Global, names: &Names) -> Result<Texts, AllocError> {
        let mut texts = PlainList::new(alloc);
        for number in 0..names.len() {
            let number = u32::try_from(number).or(Err(AllocError))?;
            texts.push(PlainText::copied(alloc, names.name(number))?)?;
        }
        Ok(Texts { texts })
    }

    /// The text of a number; `?` where there are not so many.
    pub(crate) fn at(&self, number: u32) -> &str
        ensures { result.now ≡ text_at self.now.texts number }
    {
        match self.texts.get(number as usize) {
            Some(text) => text.as_str(),
            None => "?",
        }
    }
}

impl StateNames<Place> for Texts {
    ghost name_is = { λ it place. text_at it.texts place.number };

    fn name(&self, place: Place) -> &str {
        self.at(place.number)
    }
}
