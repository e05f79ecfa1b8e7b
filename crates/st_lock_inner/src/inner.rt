//! What lies under a machine's lock.
ghost use Rattle.std.specs.Prelude.{◌≡◌, ◌+◌, ◌++◌, ◌∷◌, [], ◌<◌, ◌^◌, length, true, IfOk, IfErr, OnOk, OnErr};
ghost use Rattle.st_events.specs.declared.refusal.Refusal.TheVariants.{NoMemory};
ghost use Rattle.st_answers.specs.declared.command.Command.TheVariants as command;
ghost use Rattle.st_core.specs.Callbacks.{callbacks_of};
ghost use Rattle.st_scheduled.specs.Answered.{posted_as, ticked_as, replied_as, collected_as, stopped_as};
ghost use Rattle.st_scheduled.specs.ScheduledMachine.{token_of};
ghost use Rattle.st_cell.specs.Calls.{Posts, IsTold, Turns, TakesOut, Delivers, opened, look_of, cut, is_removable, IsJournalOf};
ghost use Rattle.st_cell.specs.Cell.{cell_at_first, IsJournaled, IsOpen, count_for};
ghost use Rattle.st_journal.specs.Journal.{numbers_of};
ghost use Rattle.st_post_counter.specs.Seen.{whole, part, IsWhole, IsPart};
ghost use Rattle.st_lock_inner.specs.Inner.{is_long};
ghost use Rattle.st_lock_inner.specs.Service.{Serves, turned_as};
ghost use Rattle.st_lock_inner.specs.Inner.{EndsWith, Leaves, inner_at_first, HasEnd, counters_of};

use crate::Service;
use st_any_cell::{AnyCell, any_cell_is_journaled};
use st_cell::{
    Collected, Core, Entry, Journal, Look, MachineId, Message, Module, Next, Post, Posted, Reason,
    Refusal, Refused, Tag, Ticked, Token,
};
use st_post_counter::{Addition, Counter, Endpoint};
use std::alloc::Global;
use std::marker::{Brand, Model};
use std::snapshot::Snapshot;

/// An event that a port of a machine of this module posted.
///
/// Ours: docs/DECISIONS.md, Shared machines.
pub type PostOf<M> = Post<<M as Module>::Content>;

/// A machine's cell, and the machine's endpoint on the counter of each port.
///
/// Ours: docs/DECISIONS.md, Shared machines.
#[derive(Drop)]
pub struct Inner<M: Module> {
    cell: AnyCell<M>,
    ends: Vec<Endpoint<PostOf<M>>>,
}

impl<M: Module> Model for Inner<M> {
    ghost use Rattle.st_lock_inner.specs.Inner.{InnerState, IsInner};

    ghost Value = { InnerState M M.State M.Data M.Content };

    ghost view = { λ inner. record { cell = inner.cell.cell; ends = inner.ends.items } };

    ghost invariant = { λ inner. IsInner (record { cell = inner.cell.cell; ends = inner.ends.items }) };
}

/// The machine's endpoint sees the post whose number, entry and content these are.
fn add_post<C>(
    counter: &Counter<Post<C>>,
    end: &mut Endpoint<Post<C>>,
    count: u64,
    number: u64,
    entry: Entry,
    content: Snapshot<C>,
)
    requires counter { end.old.counter ≡ counter.now }
    requires whole { IsWhole end.old.seen }
    requires count { count ≡ length end.old.seen.posts + 1 }
    ensures added { end.new ≡ record end.old { seen = whole (end.old.seen.posts ++ record { number = number; entry = entry; content = content.value } ∷ []) } }
{
    add_picked::<C, Brand>(counter, end, count, number, entry, content);
}

/// The same, where the post that is added is picked.
fn add_picked<C, A: Addition<Post<C>>>(
    counter: &Counter<Post<C>>,
    end: &mut Endpoint<Post<C>>,
    count: u64,
    number: u64,
    entry: Entry,
    content: Snapshot<C>,
)
    requires counter { end.old.counter ≡ counter.now }
    requires whole { IsWhole end.old.seen }
    requires count { count ≡ length end.old.seen.posts + 1 }
    requires picked { A.added ≡ record { number = number; entry = entry; content = content.value } ∷ [] }
    ensures added { end.new ≡ record end.old { seen = whole (end.old.seen.posts ++ record { number = number; entry = entry; content = content.value } ∷ []) } }
{
    let _ = number;
    let _ = entry;
    let _ = content;
    counter.add_picked::<A>(end, count);
}

/// What is told of a turn.
fn turned<C>(answer: Result<Next, Refused<Token>>) -> Result<Service<C>, Refused<Token>>
    ensures { result ≡ turned_as answer }
{
    match answer {
        Ok(next) => Ok(Service::Turned(next)),
        Err(refused) => Err(refused),
    }
}

impl<M: Module> Inner<M> {
    /// A cell with this machine as its base, which keeps its journal, and no port. Where there is no memory, the machine comes
    /// back.
    ///
    /// Ours: docs/DECISIONS.md, Shared machines.
    pub fn journaled(
        alloc: Global,
        core: Core<M>,
    ) -> Result<(Inner<M>, Option<Token>), Refused<Core<M>>>
        ensures begun { IfOk result (λ begun. begun.0 ≡ inner_at_first core) }
        ensures token { IfOk result (λ begun. begun.1 ≡ token_of (cell_at_first core).scheduled) }

        ensures refusals { IfErr result (λ refused. refused.refusal ≡ NoMemory) }
        ensures returned { IfErr result (λ refused. refused.value ≡ core) }
    {
        match AnyCell::journaled(alloc, core) {
            Ok((cell, token)) => {
                let ends = Vec::new(alloc);
                Ok((Inner { cell, ends }, token))
            }
            Err(refused) => Err(refused),
        }
    }

    /// A cell with this machine as its base, which keeps no journal, and no port.
    ///
    /// Ours: docs/DECISIONS.md, Shared machines.
    pub fn unjournaled(alloc: Global, core: Core<M>) -> (Inner<M>, Option<Token>)
        ensures begun { result.0 ≡ inner_at_first core }
        ensures token { result.1 ≡ token_of (cell_at_first core).scheduled }
    {
        let (cell, token) = AnyCell::unjournaled(alloc, core);
        let ends = Vec::new(alloc);
        (Inner { cell, ends }, token)
    }

    /// A cell with this machine as its base, which keeps its journal or keeps none, and no port. Where there is no memory for
    /// the journal, the machine comes back.
    ///
    /// Ours: docs/DECISIONS.md, Shared machines.
    pub fn begun(
        alloc: Global,
        core: Core<M>,
        keeps: bool,
    ) -> Result<(Inner<M>, Option<Token>), Refused<Core<M>>>
        ensures begun { IfOk result (λ begun. begun.0 ≡ inner_at_first core) }
        ensures token { IfOk result (λ begun. begun.1 ≡ token_of (cell_at_first core).scheduled) }

        ensures refusals { IfErr result (λ refused. refused.refusal ≡ NoMemory) }
        ensures returned { IfErr result (λ refused. refused.value ≡ core) }
    {
        if keeps {
            return Inner::journaled(alloc, core);
        }
        Ok(Inner::unjournaled(alloc, core))
    }

    /// The machine alone.
    ///
    /// Ours: docs/DECISIONS.md, Shared machines.
    pub fn into_core(self) -> Core<M>
        ensures { result ≡ self.cell.scheduled.core }
    {
        let Inner { cell, .. } = self;
        cell.into_core()
    }

    /// Whether who waits for a reply, or for the end, may find one behind the last turn.
    ///
    /// Ours: docs/DECISIONS.md, Shared machines.
    pub fn has_replied(&self) -> bool {
        self.cell.has_replied()
    }

    /// Opens the next port, with this endpoint of the machine, and answers its number. Where there is no memory, none is
    /// opened.
    ///
    /// Ours: docs/DECISIONS.md, Shared machines.
    pub fn port(&mut self, end: Endpoint<PostOf<M>>) -> Result<u64, Refusal>
        requires { end.seen ≡ whole [] }
        ensures opened { IfOk result (λ port. self.new.ends ≡ self.old.ends ++ end ∷ []) }
        ensures number { IfOk result (λ port. port ≡ length self.old.ends + 1) }
        ensures cell { IfOk result (λ port. self.new.cell ≡ (opened self.old.cell).1) }

        ensures refusals { IfErr result (λ refusal. refusal ≡ NoMemory) }
        ensures unchanged { OnErr result (self.new ≡ self.old) }
    {
        any_cell_is_journaled(&self.cell);
        if self.ends.reserve(1).is_err() {
            return Err(Refusal::NoMemory);
        }
        match self.cell.port() {
            Ok(port) => {
                self.ends.push_reserved(end);
                Ok(port)
            }
            Err(refusal) => Err(refusal),
        }
    }

    /// The machine's id.
    ///
    /// Ours: docs/DECISIONS.md, Shared machines.
    pub fn id(&self) -> MachineId
        ensures { result ≡ self.now.cell.scheduled.core.machine.id }
    {
        self.cell.core().id()
    }

    /// Says whether the machine has this id, and a port is open and has posted so many events.
    ///
    /// Ours: docs/DECISIONS.md, Shared machines.
    pub fn counts(&self, id: MachineId, port: u64, count: u64) -> bool
        ensures own { result ≡ true → self.now.cell.scheduled.core.machine.id ≡ id }
        ensures open { result ≡ true → IsOpen port self.now.cell }
        ensures count { result ≡ true → count ≡ count_for port self.now.cell }
        ensures limited { result ≡ true → count < 2 ^ 63 }
    {
        any_cell_is_journaled(&self.cell);
        self.id() == id && self.cell.is_open(port) && self.cell.count_for(port) == count
    }

    /// A port posts an event, as `Cell::post` does. Where it is taken, the machine's endpoint and the port's see it. Where it
    /// is refused, nothing changes, and the content comes back.
    ///
    /// Ours: docs/DECISIONS.md, Shared machines.
    pub fn post(
        &mut self,
        counter: &Counter<PostOf<M>>,
        mine: &mut Endpoint<PostOf<M>>,
        port: u64,
        entry: Entry,
        content: M::Content,
    ) -> Result<Posted, Refused<M::Content>>
        requires open { IsOpen port self.old.cell }
        requires end { HasEnd self.old port counter.now }
        requires mine { (mine.old.counter ≡ counter.now) × IsPart mine.old.seen }
        requires count { length mine.old.seen.posts ≡ count_for port self.old.cell }
        ensures does { Leaves (Posts (callbacks_of M.Module M.State.eq) self.old.cell port entry content (posted_as result)) self.new.cell }
        ensures posted { IfOk result (λ posted. mine.new ≡ record mine.old { seen = part (mine.old.seen.posts ++ record { number = posted.number; entry = entry; content = content } ∷ []) }) }
        ensures same { counters_of self.new.ends ≡ counters_of self.old.ends }

        ensures unchanged { OnErr result ((self.new ≡ self.old) × (mine.new ≡ mine.old)) }
        ensures returned { IfErr result (λ refused. refused.value ≡ content) }
    {
        let was = Snapshot::of(&content);
        match self.cell.post(port, entry, content) {
            Ok(posted) => {
                let count = self.cell.count_for(port);
                let end = &mut self.ends[port as usize - 1];
                add_post(counter, end, count, posted.number, entry, was);
                counter.follow(end, mine);
                Ok(posted)
            }
            Err(refused) => Err(refused),
        }
    }

    /// What is seen of the machine by a port, whose endpoint has seen as many posts as the machine's. Refused with `NoMemory`.
    ///
    /// Ours: docs/DECISIONS.md, Shared machines.
    pub fn look(
        &mut self,
        counter: &Counter<PostOf<M>>,
        mine: &mut Endpoint<PostOf<M>>,
        port: u64,
    ) -> Result<Look<M::State, M::Data>, Refusal>
        requires open { IsOpen port self.old.cell }
        requires end { HasEnd self.old port counter.now }
        requires mine { (mine.old.counter ≡ counter.now) × IsPart mine.old.seen }
        requires count { length mine.old.seen.posts ≡ count_for port self.old.cell }
        ensures look { IfOk result (λ look. look ≡ look_of port self.old.cell) }
        ensures numbers { IfOk result (λ look. EndsWith (numbers_of mine.old.seen.posts) look.numbers) }
        ensures same { (counters_of self.new.ends ≡ counters_of self.old.ends) × (mine.new ≡ mine.old) }

        ensures refusals { IfErr result (λ refusal. refusal ≡ NoMemory) }
    {
        match self.cell.look(port) {
            Ok(look) => {
                let end = &mut self.ends[port as usize - 1];
                counter.agree(end, mine);
                Ok(look)
            }
            Err(refusal) => Err(refusal),
        }
    }

    /// Serves the machine by a token, at a moment, in milliseconds, as `Cell::turn` does.
    ///
    /// Ours: docs/DECISIONS.md, Shared machines.
    pub fn turn(&mut self, token: Token, now: u64) -> Result<Next, Refused<Token>>
        ensures does { Leaves (Turns (callbacks_of M.Module M.State.eq) self.old.cell token now result) self.new.cell }
        ensures same { self.new.ends ≡ self.old.ends }

        ensures unchanged { OnErr result (self.new.cell ≡ self.old.cell) }
        ensures returned { IfErr result (λ refused. refused.value ≡ token) }
    {
        self.cell.turn(token, now)
    }

    /// Takes the machine's first message out by a token, as `Cell::take_out` does.
    ///
    /// Ours: docs/DECISIONS.md, Shared machines.
    pub fn take_out(&mut self, token: Token) -> Result<Option<Message<M::Content>>, Refused<Token>>
        ensures does { Leaves (TakesOut (callbacks_of M.Module M.State.eq) self.old.cell token result) self.new.cell }
        ensures same { self.new.ends ≡ self.old.ends }

        ensures unchanged { OnErr result (self.new.cell ≡ self.old.cell) }
        ensures returned { IfErr result (λ refused. refused.value ≡ token) }
    {
        self.cell.take_out(token)
    }

    /// Serves the machine by a token, at a moment, in milliseconds: takes its first message out, and where it has none,
    /// gives it a turn. Where that is refused, the token comes back.
    ///
    /// Ours: docs/DECISIONS.md, Shared machines.
    pub fn serve(&mut self, token: Token, now: u64) -> Result<Service<M::Content>, Refused<Token>>
        ensures does { Leaves (Serves (callbacks_of M.Module M.State.eq) self.old.cell token now result) self.new.cell }
        ensures same { self.new.ends ≡ self.old.ends }

        ensures returned { IfErr result (λ refused. refused.value ≡ token) }
    {
        match self.cell.take_out(token) {
            Ok(Some(message)) => Ok(Service::Sent(message)),
            Ok(None) => turned(self.cell.turn(token, now)),
            Err(refused) => Err(refused),
        }
    }

    /// A message comes to the machine, as `Cell::deliver` does it.
    ///
    /// Ours: docs/DECISIONS.md, Shared machines.
    pub fn deliver(
        &mut self,
        message: Message<M::Content>,
    ) -> Result<Posted, Refused<Message<M::Content>>>
        requires { message.target ≡ self.old.cell.scheduled.core.machine.id }
        ensures does { Leaves (Delivers (callbacks_of M.Module M.State.eq) self.old.cell message result) self.new.cell }
        ensures same { self.new.ends ≡ self.old.ends }

        ensures unchanged { OnErr result (self.new.cell ≡ self.old.cell) }
        ensures returned { IfErr result (λ refused. refused.value ≡ message) }
    {
        self.cell.deliver(message)
    }

    /// Tells the machine the moment, in milliseconds, as `Cell::tick` does.
    ///
    /// Ours: docs/DECISIONS.md, Shared machines.
    pub fn tick(&mut self, now: u64) -> Result<Ticked, Refusal>
        ensures does { Leaves (IsTold (callbacks_of M.Module M.State.eq) self.old.cell (command.Tick now) (ticked_as result)) self.new.cell }
        ensures same { self.new.ends ≡ self.old.ends }

        ensures unchanged { OnErr result (self.new.cell ≡ self.old.cell) }
    {
        self.cell.tick(now)
    }

    /// Hands out what is kept for a request, once, as `Cell::collect` does.
    ///
    /// Ours: docs/DECISIONS.md, Shared machines.
    pub fn collect(&mut self, tag: Tag) -> Result<Collected<M::Content>, Refusal>
        ensures does { Leaves (IsTold (callbacks_of M.Module M.State.eq) self.old.cell (command.Collect tag) (collected_as result)) self.new.cell }
        ensures same { self.new.ends ≡ self.old.ends }

        ensures unchanged { OnErr result (self.new.cell ≡ self.old.cell) }
    {
        self.cell.collect(tag)
    }

    /// Answers a request, as `Cell::reply` does.
    ///
    /// Ours: docs/DECISIONS.md, Shared machines.
    pub fn reply(&mut self, tag: Tag, content: M::Content) -> Result<bool, Refused<M::Content>>
        ensures does { Leaves (IsTold (callbacks_of M.Module M.State.eq) self.old.cell (command.Reply tag content) (replied_as result)) self.new.cell }
        ensures same { self.new.ends ≡ self.old.ends }

        ensures unchanged { OnErr result (self.new.cell ≡ self.old.cell) }
        ensures returned { IfErr result (λ refused. refused.value ≡ content) }
    {
        self.cell.reply(tag, content)
    }

    /// Ends the machine at once, as `Cell::stop` does.
    ///
    /// Ours: docs/DECISIONS.md, Shared machines.
    pub fn stop(&mut self, reason: Reason) -> Result<u32, Refusal>
        ensures does { Leaves (IsTold (callbacks_of M.Module M.State.eq) self.old.cell (command.Stop reason) (stopped_as result)) self.new.cell }
        ensures same { self.new.ends ≡ self.old.ends }

        ensures unchanged { OnErr result (self.new.cell ≡ self.old.cell) }
    {
        self.cell.stop(reason)
    }

    /// The machine, to be read.
    ///
    /// Ours: docs/DECISIONS.md, Shared machines.
    pub fn core(&self) -> &Core<M>
        ensures { result.now ≡ self.now.cell.scheduled.core }
    {
        self.cell.core()
    }

    /// The machine's outstanding token.
    ///
    /// Ours: docs/DECISIONS.md, Tokens.
    pub fn token(&self) -> Option<Token>
        ensures { result ≡ token_of self.now.cell.scheduled }
    {
        self.cell.token()
    }

    /// Says whether the machine has ended and none of its messages is left.
    ///
    /// Ours: docs/DECISIONS.md, Shared machines.
    pub fn removable(&self) -> bool
        ensures { result ≡ is_removable self.now.cell }
    {
        self.cell.removable()
    }

    /// Says whether the journal has more entries than this, and no fewer than events wait.
    ///
    /// Ours: docs/DECISIONS.md, Shared machines.
    pub fn is_long(&self, limit: usize) -> bool
        ensures { result ≡ is_long limit self.now.cell }
    {
        let entries = self.cell.entries();
        entries > limit && self.core().waiting() <= entries
    }

    /// A copy of the journal, with a label. Refused with `NoMemory`.
    ///
    /// Ours: docs/DECISIONS.md, Shared machines.
    pub fn journal(&self, label: &str) -> Result<Journal<M::State, M::Content>, Refusal>
        ensures journal { IfOk result (λ journal. IsJournalOf self.now.cell label.now journal) }

        ensures refusals { IfErr result (λ refusal. refusal ≡ NoMemory) }
    {
        self.cell.journal(label)
    }

    /// Cuts the journal, as `Cell::cut` does.
    ///
    /// Ours: docs/DECISIONS.md, Shared machines.
    pub fn cut(&mut self) -> Result<(), Refusal>
        ensures cut { IfOk result (λ _. self.new.cell ≡ cut self.old.cell) }
        ensures same { self.new.ends ≡ self.old.ends }

        ensures refusals { IfErr result (λ refusal. refusal ≡ NoMemory) }
        ensures unchanged { OnErr result (self.new.cell ≡ self.old.cell) }
    {
        self.cell.cut()
    }

    /// Hands the journal out, with a label, and cuts it, as `Cell::take_journal` does.
    ///
    /// Ours: docs/DECISIONS.md, Shared machines.
    pub fn take_journal(&mut self, label: &str) -> Result<Journal<M::State, M::Content>, Refusal>
        ensures journal { IfOk result (λ journal. IsJournalOf self.old.cell label.now journal) }
        ensures cut { OnOk result (self.new.cell ≡ cut self.old.cell) }
        ensures same { self.new.ends ≡ self.old.ends }

        ensures refusals { IfErr result (λ refusal. refusal ≡ NoMemory) }
        ensures unchanged { OnErr result (self.new.cell ≡ self.old.cell) }
    {
        self.cell.take_journal(label)
    }
}

/// The cell of an inner state is what every cell is.
///
/// Ours: docs/DECISIONS.md, Shared machines.
pub fn its_cell_is_journaled<M: Module>(inner: &Inner<M>)
    ensures { IsJournaled (callbacks_of M.Module M.State.eq) inner.now.cell }
{
    any_cell_is_journaled(&inner.cell);
}
