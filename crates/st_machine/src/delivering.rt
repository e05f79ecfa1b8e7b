//! Messages between the machines of a session.

use crate::letter::Letter;
use crate::page::Page;
use crate::world::World;
use st_answers::Answer;
use st_events::Module;
use st_table::Signal;
use std::alloc::AllocError;

impl World {
    /// The message that the machine at a place has just sent out, where a machine can take it. It is told, also where it is
    /// lost.
    pub(crate) fn letter(
        &self,
        place: usize,
        page: &mut Page,
    ) -> Result<Option<Letter>, AllocError> {
        let Some(by) = self.speaker(place) else {
            return Ok(None);
        };
        let Some(Answer::TakeOut(Some(message))) = by.machine.answer() else {
            return Ok(None);
        };
        let receiver = self.receiver(message.target);
        by.tell_message(message, receiver.is_none(), page);
        let Some(receiver) = receiver else {
            return Ok(None);
        };
        let module = by.machine.core.module();
        let signal = module.copy_content(self.alloc, &message.content)?;
        Ok(Some(Letter {
            sender: message.sender,
            number: message.number,
            book: by.machine.book,
            receiver,
            signal,
        }))
    }

    /// A signal of the words of one description in those of another. A symbol that the other has not comes in there.
    pub(crate) fn translated(
        &mut self,
        from: usize,
        to: usize,
        signal: Signal,
    ) -> Result<Signal, AllocError> {
        if from == to {
            return Ok(signal);
        }
        let Signal { symbol, argument } = signal;
        let name = match self.books.get(from) {
            Some(book) => String::from_str(self.alloc, book.chart.names.symbols.name(symbol))?,
            None => return Err(AllocError),
        };
        let symbol = match self.books.get_mut(to) {
            Some(book) => book.chart.names.symbols.number(self.alloc, name.as_str())?,
            None => return Err(AllocError),
        };
        Ok(Signal { symbol, argument })
    }
}
