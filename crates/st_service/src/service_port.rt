//! A port of a service's machine.
ghost use Rattle.std.specs.Prelude.{◌≡◌, ℕ, length, Ok, IfOk, IfErr, OnErr, MatchResult};
ghost use Rattle.st_core.specs.Callbacks.{callbacks_of};
ghost use Rattle.st_answers.specs.declared.entry.Entry.TheVariants.{Call, Cast, Info};
ghost use Rattle.st_lock.specs.Bounded.{content_in};
ghost use Rattle.st_client.specs.Called.{IsCall};
ghost use Rattle.st_service.specs.Ports.{with_post, IsAsked, IsNotAsked, PostsUnlessClosed, SendsWithin};

use crate::Observer;
use crate::link::Link;
use st_client::{Called, RequestId, receive};
use st_hall::{Machine, Module, Port, Refusal, Refused};
use st_lock::{Entry, Look, Posted, Unposted};
use std::alloc::Global;
use std::marker::Model;
use std::rt::Clock;
use std::sync::{Arc, Wait};

/// A port of a service's machine, through which one caller posts. The machine is scheduled by each post that needs it. A
/// contract sees the events that were posted through it, in order, and how many events may wait at the machine.
///
/// It may outlive the service: then it posts nothing more.
///
/// Ours: docs/DECISIONS.md, Services, Ports.
#[derive(Drop)]
pub struct ServicePort<M: Module, R: Wait + Clock + Drop, O: Observer<M> + Drop> {
    port: Port<M>,
    link: Arc<Link<M, R, O>, Global>,
    limit: usize,
}

impl<M: Module, R: Wait + Clock + Drop, O: Observer<M> + Drop> Model for ServicePort<M, R, O> {
    ghost use Rattle.st_service.specs.Ports.{ServicePortState};

    ghost Value = { ServicePortState M.Content };

    ghost view = { λ it. record { port = it.port; limit = it.limit } };
}

impl<M: Module, R: Wait + Clock + Drop, O: Observer<M> + Drop> ServicePort<M, R, O> {
    ghost use Rattle.std.specs.Prelude.{◌≡◌};

    /// A port, through which nothing is posted where as many events as `limit` wait.
    pub(crate) fn new(
        port: Port<M>,
        link: Arc<Link<M, R, O>, Global>,
        limit: usize,
    ) -> ServicePort<M, R, O>
        ensures { result ≡ record { port = port; limit = limit } }
    {
        ServicePort { port, link, limit }
    }

    /// The machine.
    ///
    /// Ours: docs/DECISIONS.md, Ports.
    pub fn machine(&self) -> &Arc<Machine<M>> {
        self.port.machine()
    }

    /// How many events were posted through it.
    ///
    /// Ours: docs/DECISIONS.md, Ports.
    pub fn count(&self) -> u64
        ensures { result ≡ length self.now.port.posts }
    {
        self.port.count()
    }

    /// Posts an event, unless the service is closing. The token that the machine was issued by it, if it was, comes back.
    fn post(&mut self, entry: Entry, content: M::Content) -> Result<Posted, Unposted<M::Content>>
        ensures does { PostsUnlessClosed (callbacks_of M.Module M.State.eq) self.old.port.machine (length self.old.port.posts) self.old.limit entry content result }
        ensures posted { IfOk result (λ posted. self.new ≡ with_post (record { number = posted.number; entry = entry; content = content }) self.old) }

        ensures unchanged { OnErr result (self.new ≡ self.old) }
        ensures returned { IfErr result (λ unposted. content_in unposted ≡ content) }
    {
        if self.link.is_closing() {
            return Err(Unposted::Closed(content));
        }
        self.port
            .post_within(self.link.rt(), self.limit, entry, content)
    }

    /// Posts an event, and schedules the machine. Answers the event's number.
    fn send(&mut self, entry: Entry, content: M::Content) -> Result<u64, Unposted<M::Content>>
        ensures does { SendsWithin (callbacks_of M.Module M.State.eq) self.old.port.machine (length self.old.port.posts) self.old.limit entry content result }
        ensures posted { IfOk result (λ number. self.new ≡ with_post (record { number = number; entry = entry; content = content }) self.old) }

        ensures unchanged { OnErr result (self.new ≡ self.old) }
        ensures returned { IfErr result (λ unposted. content_in unposted ≡ content) }
    {
        match self.post(entry, content) {
            Ok(posted) => {
                // Where it comes back, the service is closing: who closes it asks the machine for its token.
                let _ = self.link.schedule(posted.wake);
                Ok(posted.number)
            }
            Err(unposted) => Err(unposted),
        }
    }

    /// Casts: posts an event that wants no reply, and schedules the machine. Answers the event's number.
    ///
    /// Refused with `Closed` once the service is shutting down or was dropped, with `Busy` where as many events wait at the
    /// machine as may, and as `Port::post` is refused. Then nothing was posted, and the content comes back. Where the machine
    /// could not be scheduled for want of memory, that is tried again until the service closes; no contract says that this ends.
    ///
    /// Manual: `cast/2`.
    pub fn cast(&mut self, content: M::Content) -> Result<u64, Unposted<M::Content>>
        ensures does { SendsWithin (callbacks_of M.Module M.State.eq) self.old.port.machine (length self.old.port.posts) self.old.limit Cast content result }
        ensures posted { IfOk result (λ number. self.new ≡ with_post (record { number = number; entry = Cast; content = content }) self.old) }

        ensures unchanged { OnErr result (self.new ≡ self.old) }
        ensures returned { IfErr result (λ unposted. content_in unposted ≡ content) }
    {
        self.send(Entry::Cast, content)
    }

    /// Posts a message that is neither a cast nor a call, as `cast` does.
    ///
    /// Refused as `cast` is.
    ///
    /// Manual: `event_type()`, the bullet on `info`.
    pub fn info(&mut self, content: M::Content) -> Result<u64, Unposted<M::Content>>
        ensures does { SendsWithin (callbacks_of M.Module M.State.eq) self.old.port.machine (length self.old.port.posts) self.old.limit Info content result }
        ensures posted { IfOk result (λ number. self.new ≡ with_post (record { number = number; entry = Info; content = content }) self.old) }

        ensures unchanged { OnErr result (self.new ≡ self.old) }
        ensures returned { IfErr result (λ unposted. content_in unposted ≡ content) }
    {
        self.send(Entry::Info, content)
    }

    /// Sends a request, and schedules the machine. What comes of it is asked for by the request's id.
    ///
    /// Refused as `cast` is.
    ///
    /// Manual: `send_request/2`.
    pub fn send_request(
        &mut self,
        content: M::Content,
    ) -> Result<RequestId<M>, Unposted<M::Content>>
        ensures does { MatchResult result (λ id. SendsWithin (callbacks_of M.Module M.State.eq) self.old.port.machine (length self.old.port.posts) self.old.limit Call content (Ok id.request))
            (IsNotAsked (callbacks_of M.Module M.State.eq) self.old.port.machine (length self.old.port.posts) self.old.limit content) }
        ensures posted { IfOk result (λ id. self.new ≡ with_post (record { number = id.request; entry = Call; content = content }) self.old) }
        ensures id { IfOk result (λ id. id.machine ≡ self.old.port.machine) }

        ensures unchanged { OnErr result (self.new ≡ self.old) }
        ensures returned { IfErr result (λ unposted. content_in unposted ≡ content) }
    {
        let machine = match Arc::try_clone(self.port.machine()) {
            Ok(machine) => machine,
            Err(_) => return Err(Unposted::Refused(Refused::new(Refusal::NoMemory, content))),
        };
        match self.send(Entry::Call, content) {
            Ok(number) => Ok(RequestId::new(machine, number)),
            Err(unposted) => Err(unposted),
        }
    }

    /// Calls: posts an event that wants a reply, and waits for the reply or the machine's end. Where the machine was at rest,
    /// the caller's own thread makes its turn, module's callbacks and observer with it, and nobody is waked; else workers do. It
    /// never answers `Unscheduled`.
    ///
    /// Refused as `cast` is. A refusal later than that is answered as `Called::Uncollected`.
    ///
    /// One that waits while the service is shut down or dropped hears that the machine stopped. No contract says that it ends.
    ///
    /// Manual: `call/2`.
    pub fn call(&mut self, content: M::Content) -> Result<Called<M>, Unposted<M::Content>>
        ensures does { MatchResult result (IsAsked (callbacks_of M.Module M.State.eq) self.old.port.machine (length self.old.port.posts) self.old.limit content)
            (IsNotAsked (callbacks_of M.Module M.State.eq) self.old.port.machine (length self.old.port.posts) self.old.limit content) }
        ensures posted { IfOk result (λ called. IsCall content called self.old.port self.new.port) }
        ensures limit { self.new.limit ≡ self.old.limit }

        ensures unchanged { OnErr result (self.new ≡ self.old) }
        ensures returned { IfErr result (λ unposted. content_in unposted ≡ content) }
    {
        let machine = match Arc::try_clone(self.port.machine()) {
            Ok(machine) => machine,
            Err(_) => return Err(Unposted::Refused(Refused::new(Refusal::NoMemory, content))),
        };
        match self.post(Entry::Call, content) {
            Ok(posted) => {
                self.link.serve(&*machine, posted.wake);
                let id = RequestId::new(machine, posted.number);
                Ok(receive(self.link.rt(), id))
            }
            Err(unposted) => Err(unposted),
        }
    }

    /// What is seen of the machine, as `Port::look` shows it.
    ///
    /// Refused with `NoMemory` where memory is wanted and there is none. It walks the journal.
    ///
    /// Ours: docs/DECISIONS.md, Looks, Ports; manual: `sys:get_state/1`.
    pub fn look(&mut self) -> Result<Look<M::State, M::Data>, Refusal>
        ensures same { self.new ≡ self.old }
        ensures mine { IfOk result (λ look. look.mine ≡ length self.old.port.posts) }
    {
        self.port.look(self.link.rt())
    }
}
