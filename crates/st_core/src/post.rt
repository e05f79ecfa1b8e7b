//! An event comes from outside.
ghost use Rattle.std.specs.Prelude.{◌≡◌, List, None, OnOk, OnErr, IfErr};
ghost use Rattle.st_requests.specs.declared.request.Request.{Request};
ghost use Rattle.st_requests.specs.Requests.{held_for};
ghost use Rattle.st_answers.specs.declared.answer.Answer.TheVariants as answer;
ghost use Rattle.st_answers.specs.declared.command.Command.TheVariants as command;
ghost use Rattle.st_core.specs.Callbacks.{callbacks_of};
ghost use Rattle.st_core.specs.Post.{kind_of, opened_by};
ghost use Rattle.st_core.specs.Run.{Does};

use crate::{Core, Entry};
use st_events::{Kind, Module, NUMBER_LIMIT, Refusal, Refused, Tag};
use st_requests::Requests;
use std::alloc::AllocError;

/// The kind of an event that is posted so, and whose request, if it is a call, has this tag.
fn kind_of(tag: Tag, entry: Entry) -> Kind
    ensures { result ≡ kind_of tag entry }
{
    match entry {
        Entry::Call => Kind::Call(tag),
        Entry::Cast => Kind::Cast,
        Entry::Info => Kind::Info,
    }
}

/// Opens the request of an event that is posted so: of a call there is one.
fn open<C: Drop>(requests: &mut Requests<C>, tag: Tag, entry: Entry) -> Result<(), AllocError>
    requires { held_for requests.old tag ≡ None }
    ensures opened { OnOk result (requests.new ≡ opened_by tag entry requests.old) }

    ensures unchanged { OnErr result (requests.new ≡ requests.old) }
{
    match entry {
        Entry::Call => requests.open(tag),
        Entry::Cast | Entry::Info => Ok(()),
    }
}

/// Takes the request back that was opened so.
fn withdraw<C: Drop>(requests: &mut Requests<C>, tag: Tag, entry: Entry)
    ensures { (earlier : List (Request C)) → held_for earlier tag ≡ None → requests.old ≡ opened_by tag entry earlier → requests.new ≡ earlier }
{
    match entry {
        Entry::Call => requests.withdraw(tag),
        Entry::Cast | Entry::Info => {}
    }
}

impl<M: Module> Core<M> {
    /// Hands the machine an event from outside, and answers the event's number. The event waits
    /// behind all others. A call opens a request, whose tag is the machine's id and that number: `collect`
    /// hands its reply out. Until then the request is held, as long as there is the machine.
    ///
    /// Refused with `Stopped` once the machine has ended, with `Exhausted` where no number is left, and
    /// with `NoMemory` where memory is wanted. A refusal changes nothing and gives the content back.
    ///
    /// Manual: `call/2`, `send_request/2`, `cast/2`, `event_type()`.
    pub fn post(&mut self, entry: Entry, content: M::Content) -> Result<u64, Refused<M::Content>>
        ensures does { Does (callbacks_of M.Module M.State.eq) self.old (command.Post entry content) (answer.Post result) self.new }

        ensures unchanged { OnErr result (self.new ≡ self.old) }
        ensures returned { IfErr result (λ refused. refused.value ≡ content) }
    {
        if let Some((reason, _)) = self.ended {
            return Err(Refused::new(Refusal::Stopped(reason), content));
        }
        let number = self.agenda.next_number();
        if number >= NUMBER_LIMIT {
            return Err(Refused::new(Refusal::Exhausted, content));
        }
        let tag = Tag {
            machine: self.id,
            request: number,
        };
        if open(&mut self.requests, tag, entry).is_err() {
            return Err(Refused::new(Refusal::NoMemory, content));
        }
        match self.agenda.push(kind_of(tag, entry), content) {
            Ok(number) => Ok(number),
            Err(failed) => {
                withdraw(&mut self.requests, tag, entry);
                Err(Refused::new(Refusal::NoMemory, failed.value))
            }
        }
    }
}
