//! The messages of one machine that wait to be taken out: first in, first out.
ghost use Rattle.std.specs.Prelude.{◌≡◌, ◌+◌, ◌<◌, ◌≤◌, ◌^◌, [], ◌∷◌, option_copied, IfNone, OnSome, IsOk, IfOk, OnOk};
ghost use Rattle.st_outbox.specs.Outbox.{first_outbox, with_sent, first_message, taken_out, has_messages};

use crate::Outbox;
use st_events::{CopyContent, MachineId, Message, PlainList};
use std::alloc::{AllocError, Global};
use std::collections::VecDeque;
use std::marker::Model;

/// What one machine has sent and what was not taken out yet, in the order in which it was sent. It owns the numbers of
/// the messages.
///
/// Only `reserve` and `copy` take memory: a message uses a place that was reserved.
///
/// Ours: docs/DECISIONS.md, Messages.
#[derive(Drop)]
pub struct Outgoing<C> {
    messages: VecDeque<Message<C>>,
    next_number: u64,
}

impl<C> Model for Outgoing<C> {
    ghost use Rattle.std.specs.Prelude.{◌≤◌, ◌^◌, ◌-◌, length};
    ghost use Rattle.std.specs.VecDeque.{deque_capacity};
    ghost use Rattle.st_outbox.specs.Outbox.{OutgoingState};

    ghost Value = { OutgoingState C };

    ghost view = { λ outgoing. record {
      outbox = record { messages = outgoing.messages.items; next_number = outgoing.next_number };
      reserved = deque_capacity outgoing.messages - length outgoing.messages.items;
    } };

    ghost invariant = { λ outgoing. outgoing.next_number ≤ 2 ^ 63 };
}

impl<C> Outgoing<C> {
    /// Nothing was sent yet; the first message gets the number 1. It takes no memory.
    ///
    /// Ours: docs/DECISIONS.md, Messages.
    pub fn new(alloc: Global) -> Outgoing<C>
        ensures { result.outbox ≡ first_outbox }
    {
        Outgoing {
            messages: VecDeque::new(alloc),
            next_number: 1,
        }
    }

    /// The number that the next message gets. Where it is 2^63, none is left.
    ///
    /// Ours: docs/DECISIONS.md, Messages.
    pub fn next_number(&self) -> u64
        ensures next_number { result ≡ self.now.outbox.next_number }
        ensures bounded { result ≤ 2 ^ 63 }
    {
        self.next_number
    }

    /// Says whether a message waits to be taken out.
    ///
    /// Ours: docs/DECISIONS.md, Messages.
    pub fn has_messages(&self) -> bool
        ensures { result ≡ has_messages self.now.outbox.messages }
    {
        !self.messages.is_empty()
    }

    /// Shows the message that would be taken out next, and leaves it there.
    ///
    /// Ours: docs/DECISIONS.md, Messages.
    pub fn first(&self) -> Option<&Message<C>>
        ensures { option_copied result ≡ first_message self.now.outbox.messages }
    {
        self.messages.front()
    }

    /// Reserves memory, so that `count` messages can be sent. Where so much is reserved, it takes no memory. Where
    /// memory is wanted and there is none, nothing changes.
    ///
    /// The place of a message that was taken out serves another one.
    ///
    /// Ours: docs/DECISIONS.md, Messages.
    pub fn reserve(&mut self, count: usize) -> Result<(), AllocError>
        ensures reserved { OnOk result (count ≤ self.new.reserved) }
        ensures kept { self.old.reserved ≤ self.new.reserved }
        ensures unchanged { self.new.outbox ≡ self.old.outbox }

        ensures enough { count ≤ self.old.reserved → IsOk result }
    {
        self.messages.reserve(count)
    }

    /// A machine sends a content to another, with the next number, behind all that it has sent. It takes no memory.
    ///
    /// Ours: docs/DECISIONS.md, Messages.
    pub fn send(&mut self, sender: MachineId, target: MachineId, content: C)
        requires reserved { 0 < self.old.reserved }
        requires numbers { self.old.outbox.next_number < 2 ^ 63 }
        ensures sent { self.new.outbox ≡ with_sent sender self.old.outbox ((target, content) ∷ []) }
        ensures places { self.new.reserved + 1 ≡ self.old.reserved }
    {
        self.messages.push_back_reserved(Message {
            sender,
            number: self.next_number,
            target,
            content,
        });
        self.next_number += 1;
    }

    /// Takes the first message out, if there is one. It takes no memory.
    ///
    /// Ours: docs/DECISIONS.md, Messages.
    pub fn take(&mut self) -> Option<Message<C>>
        ensures message { result ≡ first_message self.old.outbox.messages }
        ensures left { self.new.outbox ≡ taken_out self.old.outbox }
        ensures place { OnSome result (self.new.reserved ≡ self.old.reserved + 1) }
        ensures unchanged { IfNone result (self.new ≡ self.old) }
    {
        self.messages.pop_front()
    }
}

impl<C: Drop> Outgoing<C> {
    /// A copy of what was sent and not taken out, in its order, with the number that the next message gets; a copier
    /// copies the contents.
    ///
    /// Where memory is wanted and there is none, nothing is copied. Ours: docs/DECISIONS.md, Snapshots.
    pub fn copy<K: CopyContent<C>>(
        &self,
        alloc: Global,
        copier: &K,
    ) -> Result<Outbox<C>, AllocError>
        ensures { IfOk result (λ copy. copy ≡ self.now.outbox) }
    {
        Ok(Outbox {
            messages: copy_messages(&self.messages, alloc, copier)?,
            next_number: self.next_number,
        })
    }
}

/// A copy of each message.
fn copy_messages<C: Drop, K: CopyContent<C>>(
    messages: &VecDeque<Message<C>>,
    alloc: Global,
    copier: &K,
) -> Result<PlainList<Message<C>>, AllocError>
    ensures { IfOk result (λ copy. copy ≡ messages.now.items) }
{
    let mut copies = Vec::with_capacity(alloc, messages.len())?;
    for message in messages {
        let copy = copy_message(message, alloc, copier)?;
        copies.push_reserved(copy);
    }
    Ok(PlainList::from(copies))
}

/// A copy of a message; a copier copies the content.
fn copy_message<C, K: CopyContent<C>>(
    message: &Message<C>,
    alloc: Global,
    copier: &K,
) -> Result<Message<C>, AllocError>
    ensures { IfOk result (λ copy. copy ≡ message.now) }
{
    let content = copier.copy_of(alloc, &message.content)?;
    Ok(Message {
        sender: message.sender,
        number: message.number,
        target: message.target,
        content,
    })
}
