//! A machine that threads share.
ghost use Rattle.std.specs.Prelude.{◌≡◌, ◌<◌, ◌^◌, Some, IfOk, IfErr};
ghost use Rattle.std.specs.Arc.{arc_value};
ghost use Rattle.st_events.specs.declared.refusal.Refusal.TheVariants.{NoMemory};
ghost use Rattle.st_requests.specs.declared.collected.Collected.TheVariants.{Waiting};
ghost use Rattle.st_scheduled.specs.ScheduledMachine.{token_of};
ghost use Rattle.st_cell.specs.Cell.{cell_at_first, IsOpen, count_for};
ghost use Rattle.st_claim_lock.specs.Holders.{lock_id, lock_of, claim_of, taken_from, value_taken, Claims, HasOut};
ghost use Rattle.st_post_counter.specs.Endpoint.{CounterId};
ghost use Rattle.st_lock.specs.declared.claim.Claim.{Claim};
ghost use Rattle.st_lock.specs.Claims.{claim, Fits, inner_of, HasSameCounters};
ghost use Rattle.st_lock_inner.specs.Inner.{inner_at_first, HasEnd};
ghost use Rattle.st_core.specs.Callbacks.{callbacks_of};
ghost use Rattle.st_answers.specs.declared.command.Command.TheVariants as command;
ghost use Rattle.st_scheduled.specs.Answered.{ticked_as, collected_as, replied_as, stopped_as};
ghost use Rattle.st_lock.specs.Machines.{id_of, DeliversSomewhere, IsJournalAt, IsToldSomewhere, ServesSomewhere, StopsSomewhere, TakesOutSomewhere, TurnsSomewhere};
ghost use Rattle.st_lock.specs.Ports.{port_at_first};

use crate::Port;
use crate::claim::{ByPort, Claim};
use crate::held::Held;
use st_cell::{
    Collected, Core, Journal, MachineId, Message, Module, Next, Posted, Reason, Refusal, Refused,
    Tag, Ticked, Token,
};
use st_claim_lock::{ClaimLock, Claimed, Holder, Taken};
use st_lock_inner::{Inner, PostOf, Service, its_cell_is_journaled};
use st_post_counter::Counter;
use std::alloc::Global;
use std::marker::Brand;
use std::sync::{Arc, Condvar, MutexGuard, Wait};

/// The inner state of a machine of this module: a hold moves no more than a box.
pub(crate) type InnerOf<M> = Box<Inner<M>>;

/// What lies under its lock: the inner state, or nothing as long as the machine is vacant.
pub(crate) type UnderLock<M> = Option<InnerOf<M>>;

/// A lock over the inner state of a machine of this module.
pub(crate) type LockOf<M> = ClaimLock<UnderLock<M>, Claim, ByPort<M>>;

/// A holder of that lock.
pub(crate) type HolderOf<M> = Holder<UnderLock<M>, Claim>;

/// That lock's value, while it is out.
pub(crate) type TakenOf<'a, M> = Taken<'a, UnderLock<M>, Claim, ByPort<M>>;

/// A machine under one lock, with its journal or without one, which any number of threads share. Each call is one critical
/// section, and in it one call of a `Cell`. Events are posted through ports: see `Machine::port`.
///
/// A call may wait for the lock. No contract says that it gets it.
///
/// Ours: docs/DECISIONS.md, Shared machines.
#[derive(Drop)]
pub struct Machine<M: Module> {
    pub(crate) lock: LockOf<M>,
    pub(crate) changed: Condvar,
    pub(crate) id: MachineId,
    alloc: Global,
}

/// Gives the inner state back, whose endpoints are of the same counters.
pub(crate) fn give_back<'a, M: Module>(
    taken: TakenOf<'a, M>,
    holder: &mut HolderOf<M>,
    inner: InnerOf<M>,
) -> MutexGuard<'a, ()>
    requires lock { lock_of holder.old ≡ taken_from taken }
    requires out { HasOut holder.old (claim_of holder.old) (value_taken taken) }
    requires same { HasSameCounters (value_taken taken) inner.value }
    ensures claims { Claims holder.new (claim_of holder.old) }
    ensures same { lock_of holder.new ≡ lock_of holder.old }
{
    taken.give_back(holder, Some(inner))
}

/// Gives the inner state back, after the port was opened that the holder claims from now on.
fn give_opened<M: Module>(
    taken: TakenOf<'_, M>,
    holder: &mut HolderOf<M>,
    inner: InnerOf<M>,
    port: u64,
    counter: &Counter<PostOf<M>>,
)
    requires lock { lock_of holder.old ≡ taken_from taken }
    requires out { HasOut holder.old (claim_of holder.old) (value_taken taken) }
    requires others { (claimed : Claim) → Fits (inner_of (value_taken taken)) claimed → Fits (Some inner.value) claimed }
    requires own { HasEnd inner.value port counter.now }
    ensures claims { Claims holder.new (claim port counter.now) }
    ensures same { lock_of holder.new ≡ lock_of holder.old }
{
    give_picked::<M, Brand>(taken, holder, inner, port, counter);
}

/// The same, where the claim is picked.
fn give_picked<M: Module, J: Claimed<Claim>>(
    taken: TakenOf<'_, M>,
    holder: &mut HolderOf<M>,
    inner: InnerOf<M>,
    port: u64,
    counter: &Counter<PostOf<M>>,
)
    requires lock { lock_of holder.old ≡ taken_from taken }
    requires out { HasOut holder.old (claim_of holder.old) (value_taken taken) }
    requires others { (claimed : Claim) → Fits (inner_of (value_taken taken)) claimed → Fits (Some inner.value) claimed }
    requires own { HasEnd inner.value port counter.now }
    requires picked { J.claim ≡ claim port counter.now }
    ensures claims { Claims holder.new (claim port counter.now) }
    ensures same { lock_of holder.new ≡ lock_of holder.old }
{
    let _ = port;
    let _ = counter;
    drop(taken.give::<J>(holder, Some(inner)));
}

/// An inner state that has just begun, in a box. Where there is no memory, the machine comes back.
pub(crate) fn boxed<M: Module>(
    alloc: Global,
    inner: Inner<M>,
) -> Result<InnerOf<M>, Refused<Core<M>>>
    ensures inner { IfOk result (λ made. made.value ≡ inner) }

    ensures refusals { IfErr result (λ refused. refused.refusal ≡ NoMemory) }
    ensures returned { IfErr result (λ refused. refused.value ≡ inner.cell.scheduled.core) }
{
    match Box::new(alloc, inner) {
        Ok(inner) => Ok(inner),
        Err(failed) => Err(Refused::new(Refusal::NoMemory, failed.value.into_core())),
    }
}

/// A run that comes to where none comes waits for good.
fn never<R: Wait>(rt: &R) -> ! {
    for _ in rt.forever() {}
    unreachable!()
}

impl<M: Module> Machine<M> {
    /// Puts a machine with an empty journal, which it keeps, under a lock. If it has work, it is issued a token, whose wake number is 0.
    ///
    /// Refused with `NoMemory` where memory is wanted and there is none; then the machine comes back, as it was.
    ///
    /// Ours: docs/DECISIONS.md, Shared machines, Tokens.
    pub fn new(
        alloc: Global,
        core: Core<M>,
    ) -> Result<(Machine<M>, Option<Token>), Refused<Core<M>>>
        ensures id { IfOk result (λ made. id_of made.0 ≡ core.machine.id) }
        ensures token { IfOk result (λ made. made.1 ≡ token_of (cell_at_first core).scheduled) }

        ensures refusals { IfErr result (λ refused. refused.refusal ≡ NoMemory) }
        ensures returned { IfErr result (λ refused. refused.value ≡ core) }
    {
        let (inner, token) = Inner::journaled(alloc, core)?;
        let machine = Machine::locked(alloc, inner)?;
        Ok((machine, token))
    }

    /// Puts a machine that keeps no journal under a lock. Its calls are those of every machine, with all their clauses: to
    /// them its journal is empty. If it has work, it is issued a token, whose wake number is 0.
    ///
    /// Refused with `NoMemory` where memory is wanted and there is none; then the machine comes back, as it was.
    ///
    /// Ours: docs/DECISIONS.md, Machines without a journal, Tokens.
    pub fn unjournaled(
        alloc: Global,
        core: Core<M>,
    ) -> Result<(Machine<M>, Option<Token>), Refused<Core<M>>>
        ensures id { IfOk result (λ made. id_of made.0 ≡ core.machine.id) }
        ensures token { IfOk result (λ made. made.1 ≡ token_of (cell_at_first core).scheduled) }

        ensures refusals { IfErr result (λ refused. refused.refusal ≡ NoMemory) }
        ensures returned { IfErr result (λ refused. refused.value ≡ core) }
    {
        let (inner, token) = Inner::unjournaled(alloc, core);
        let machine = Machine::locked(alloc, inner)?;
        Ok((machine, token))
    }

    /// Puts an inner state that has just begun under a lock.
    fn locked(alloc: Global, inner: Inner<M>) -> Result<Machine<M>, Refused<Core<M>>>
        ensures id { IfOk result (λ machine. id_of machine ≡ inner.cell.scheduled.core.machine.id) }

        ensures refusals { IfErr result (λ refused. refused.refusal ≡ NoMemory) }
        ensures returned { IfErr result (λ refused. refused.value ≡ inner.cell.scheduled.core) }
    {
        let id = inner.id();
        let inner = boxed(alloc, inner)?;
        match ClaimLock::new(alloc, Some(inner)) {
            Ok((lock, first)) => {
                drop(first);
                Ok(Machine::over(alloc, lock, id))
            }
            Err(failed) => {
                let Some(inner) = failed.value else {
                    unreachable!()
                };
                let inner = Box::into_inner(inner);
                Err(Refused::new(Refusal::NoMemory, inner.into_core()))
            }
        }
    }

    /// A machine of this id, whose inner state will lie under a new lock. Where there is no memory, there is none.
    pub(crate) fn without_inner(alloc: Global, id: MachineId) -> Result<Machine<M>, Refusal>
        ensures id { IfOk result (λ machine. id_of machine ≡ id) }

        ensures refusals { IfErr result (λ refusal. refusal ≡ NoMemory) }
    {
        match ClaimLock::new(alloc, None).ok() {
            Some((lock, first)) => {
                drop(first);
                Ok(Machine::over(alloc, lock, id))
            }
            None => Err(Refusal::NoMemory),
        }
    }

    /// The machine of this id over a lock.
    fn over(alloc: Global, lock: LockOf<M>, id: MachineId) -> Machine<M>
        ensures { id_of result ≡ id }
    {
        Machine {
            lock,
            changed: Condvar::new(),
            id,
            alloc,
        }
    }

    /// Puts an inner state under the lock, where none lies.
    pub(crate) fn put<R: Wait>(&self, rt: &R, inner: InnerOf<M>) {
        let (taken, under, mut holder) = self.lock.arrive(rt);
        if under.is_some() {
            // No run comes here: a vacant machine is filled once.
            drop(taken.give_back(&mut holder, under));
            drop(inner);
            drop(holder);
            never(rt)
        }
        drop(give_back(taken, &mut holder, inner));
        drop(holder);
    }

    /// Takes the machine's own inner state, with a newcomer's claim.
    pub(crate) fn arrive<R: Wait>(&self, rt: &R) -> (Held<'_, M>, InnerOf<M>)
        ensures lock { lock_of result.0.holder ≡ taken_from result.0.taken }
        ensures from { taken_from result.0.taken ≡ lock_id self.now.lock }
        ensures taken { value_taken result.0.taken ≡ Some result.1 }
        ensures out { HasOut result.0.holder (claim_of result.0.holder) (value_taken result.0.taken) }
        ensures own { result.1.value.cell.scheduled.core.machine.id ≡ id_of self.now }
    {
        let (taken, under, mut holder) = self.lock.arrive(rt);
        let Some(inner) = under else {
            // No run comes here: a machine is shared after its inner state is there.
            drop(taken.give_back(&mut holder, None));
            never(rt)
        };
        if inner.id() != self.id {
            // No run comes here: the inner state that was put there is the machine's own.
            drop(give_back(taken, &mut holder, inner));
            never(rt)
        }
        (Held { taken, holder }, inner)
    }

    /// Takes the machine's own inner state by the holder of a port, which has posted so many events.
    pub(crate) fn take<'a, R: Wait>(
        &'a self,
        rt: &R,
        holder: &mut HolderOf<M>,
        counter: &Counter<PostOf<M>>,
        port: u64,
        count: u64,
    ) -> (TakenOf<'a, M>, InnerOf<M>)
        requires lock { lock_of holder.old ≡ lock_id self.now.lock }
        requires claims { Claims holder.old (claim port counter.now) }
        ensures lock { lock_of holder.new ≡ taken_from result.0 }
        ensures from { taken_from result.0 ≡ lock_id self.now.lock }
        ensures taken { value_taken result.0 ≡ Some result.1 }
        ensures out { HasOut holder.new (claim port counter.now) (value_taken result.0) }
        ensures own { result.1.value.cell.scheduled.core.machine.id ≡ id_of self.now }
        ensures end { HasEnd result.1.value port counter.now }
        ensures open { IsOpen port result.1.value.cell }
        ensures count { count ≡ count_for port result.1.value.cell }
        ensures limited { count < 2 ^ 63 }
    {
        let (taken, under) = self.lock.take(rt, holder);
        let Some(inner) = under else { unreachable!() };
        if !inner.counts(self.id, port, count) {
            // No run comes here: nobody else posts through a port.
            drop(give_back(taken, holder, inner));
            never(rt)
        }
        (taken, inner)
    }

    /// Its id.
    ///
    /// Ours: docs/DECISIONS.md, Ids.
    pub fn id(&self) -> MachineId
        ensures { result ≡ id_of self.now }
    {
        self.id
    }

    /// The tag of the request that its call of this number opens.
    ///
    /// Ours: docs/DECISIONS.md, Requests.
    pub fn tag(&self, number: u64) -> Tag
        ensures { result ≡ record { machine = id_of self.now; request = number } }
    {
        Tag::new(self.id, number)
    }

    /// Opens the next port of a machine: they are numbered from 1 on. It has posted nothing.
    ///
    /// A port is to be kept and used again. No port is closed: where one is let go its number is not given again, and the
    /// machine keeps its count and its endpoint for good, some words each.
    ///
    /// Refused with `NoMemory` where memory is wanted and there is none; then none is opened.
    ///
    /// Ours: docs/DECISIONS.md, Ports.
    pub fn port<R: Wait>(this: &Arc<Machine<M>>, rt: &R) -> Result<Port<M>, Refusal>
        ensures opened { IfOk result (λ port. port ≡ port_at_first (id_of (arc_value this.now))) }

        ensures refusals { IfErr result (λ refusal. refusal ≡ NoMemory) }
    {
        let machine = Arc::try_clone(this)?;
        let (counter, end, mine) = Counter::open(this.alloc)?;
        let (held, mut inner) = this.arrive(rt);
        match inner.port(end) {
            Ok(number) => {
                let Held { taken, mut holder } = held;
                give_opened(taken, &mut holder, inner, number, &counter);
                Ok(Port {
                    machine,
                    counter,
                    end: mine,
                    holder,
                    number,
                    count: 0,
                })
            }
            Err(refusal) => {
                drop(held.give_back(inner));
                drop(mine);
                drop(counter);
                drop(machine);
                Err(refusal)
            }
        }
    }

    /// Serves the machine by a token: one turn at a moment, in milliseconds, as `Cell::turn` does. Where it
    /// replies, or the machine ends, who waits in `wait_collect` is woken.
    ///
    /// Refused as `Cell::turn` is: with `NotQueued` where the token is not the machine's outstanding one, with `Moment`,
    /// `Exhausted` and `NoMemory`. A refusal changes nothing and gives the token back.
    ///
    /// Manual: `Module:handle_event/4`; ours: docs/DECISIONS.md, Tokens.
    pub fn turn<R: Wait>(&self, rt: &R, token: Token, now: u64) -> Result<Next, Refused<Token>>
        ensures does { TurnsSomewhere (callbacks_of M.Module M.State.eq) (id_of self.now) token now result }
        ensures returned { IfErr result (λ refused. refused.value ≡ token) }
    {
        let (held, mut inner) = self.arrive(rt);
        its_cell_is_journaled(&inner);
        let answer = inner.turn(token, now);
        let is_awaited = inner.has_replied();
        drop(held.give_back(inner));
        self.wake(is_awaited);
        answer
    }

    /// Takes the machine's first message out by a token, as `Cell::take_out` does. Whoever takes it out delivers it.
    ///
    /// Refused as `Cell::take_out` is: with `NotQueued` where the token is not the machine's outstanding one, with
    /// `Exhausted` and `NoMemory`. A refusal changes nothing and gives the token back.
    ///
    /// Manual: the introduction, on sending messages from a state machine; ours: docs/DECISIONS.md, Messages.
    pub fn take_out<R: Wait>(
        &self,
        rt: &R,
        token: Token,
    ) -> Result<Option<Message<M::Content>>, Refused<Token>>
        ensures does { TakesOutSomewhere (callbacks_of M.Module M.State.eq) (id_of self.now) token result }
        ensures returned { IfErr result (λ refused. refused.value ≡ token) }
    {
        let (held, mut inner) = self.arrive(rt);
        its_cell_is_journaled(&inner);
        let answer = inner.take_out(token);
        drop(held.give_back(inner));
        answer
    }

    /// Serves the machine by a token in one critical section: takes its first message out, as `take_out` does, and where it
    /// has none, gives it one turn at a moment, in milliseconds, as `turn` does.
    ///
    /// Refused as `take_out` and `turn` are. A refusal changes nothing and gives the token back.
    ///
    /// Manual: `Module:handle_event/4`; ours: docs/DECISIONS.md, Tokens, Messages.
    pub fn serve<R: Wait>(
        &self,
        rt: &R,
        token: Token,
        now: u64,
    ) -> Result<Service<M::Content>, Refused<Token>>
        ensures does { ServesSomewhere (callbacks_of M.Module M.State.eq) (id_of self.now) token now result }
        ensures returned { IfErr result (λ refused. refused.value ≡ token) }
    {
        let (held, mut inner) = self.arrive(rt);
        its_cell_is_journaled(&inner);
        let answer = inner.serve(token, now);
        let is_awaited = inner.has_replied();
        drop(held.give_back(inner));
        self.wake(is_awaited);
        answer
    }

    /// Who waits in `wait_collect` is woken, where what was told may be what he waits for.
    fn wake(&self, is_awaited: bool) {
        if is_awaited {
            self.changed.notify_all();
        }
    }

    /// A message that was sent to this machine comes to it, as `Cell::deliver` does it: its content is posted as an info,
    /// through no port. The answer has the token that the machine is issued, if it is.
    ///
    /// Refused as `Cell::deliver` is: with `Stopped`, `Exhausted` and `NoMemory`. A refusal changes nothing and gives the
    /// message back.
    ///
    /// Manual: `info` of `event_type()`; ours: docs/DECISIONS.md, Messages.
    pub fn deliver<R: Wait>(
        &self,
        rt: &R,
        message: Message<M::Content>,
    ) -> Result<Posted, Refused<Message<M::Content>>>
        requires { message.target ≡ id_of self.now }
        ensures does { DeliversSomewhere (callbacks_of M.Module M.State.eq) (id_of self.now) message result }
        ensures returned { IfErr result (λ refused. refused.value ≡ message) }
    {
        let (held, mut inner) = self.arrive(rt);
        its_cell_is_journaled(&inner);
        let answer = inner.deliver(message);
        drop(held.give_back(inner));
        answer
    }

    /// Tells the machine the moment, in milliseconds, as `Cell::tick` does.
    ///
    /// Refused as `Cell::tick` is: with `Stopped`, `Moment`, `Exhausted` and `NoMemory`. A refusal changes nothing.
    ///
    /// Ours: docs/DECISIONS.md, Time-outs come by ticks.
    pub fn tick<R: Wait>(&self, rt: &R, now: u64) -> Result<Ticked, Refusal>
        ensures { IsToldSomewhere (callbacks_of M.Module M.State.eq) (id_of self.now) (command.Tick now) (ticked_as result) }
    {
        let (held, mut inner) = self.arrive(rt);
        its_cell_is_journaled(&inner);
        let answer = inner.tick(now);
        drop(held.give_back(inner));
        answer
    }

    /// Hands out what is kept for a request, once, as `Cell::collect` does. It waits for no reply.
    ///
    /// Refused as `Cell::collect` is: with `Exhausted` and `NoMemory`. Then what is kept stays.
    ///
    /// Manual: `receive_response/2` with no time; ours: docs/DECISIONS.md, Requests.
    pub fn collect<R: Wait>(&self, rt: &R, tag: Tag) -> Result<Collected<M::Content>, Refusal>
        ensures { IsToldSomewhere (callbacks_of M.Module M.State.eq) (id_of self.now) (command.Collect tag) (collected_as result) }
    {
        let (held, mut inner) = self.arrive(rt);
        its_cell_is_journaled(&inner);
        let answer = inner.collect(tag);
        drop(held.give_back(inner));
        answer
    }

    /// Collects as `collect` does, and where the request waits for its reply, waits until the machine was served,
    /// answered or stopped, and collects again. It never answers `Waiting`.
    ///
    /// Refused as `collect` is. It waits for good where nobody serves the machine. No contract says that it ends.
    ///
    /// Manual: `receive_response/1`; ours: docs/DECISIONS.md, Requests.
    pub fn wait_collect<R: Wait>(&self, rt: &R, tag: Tag) -> Result<Collected<M::Content>, Refusal>
        ensures collected { IfOk result (λ collected. collected ≡ Waiting → ⊥) }
        ensures does { IsToldSomewhere (callbacks_of M.Module M.State.eq) (id_of self.now) (command.Collect tag) (collected_as result) }
    {
        for _ in rt.forever() {
            let (held, mut inner) = self.arrive(rt);
            its_cell_is_journaled(&inner);
            let answer = inner.collect(tag);
            let gate = held.give_back(inner);
            match answer {
                Ok(Collected::Waiting) => drop(self.changed.wait(rt, gate)),
                _ => {
                    drop(gate);
                    return answer;
                }
            }
        }
        unreachable!()
    }

    /// Answers a request, as `Cell::reply` does, and says whether it was open. Who waits in `wait_collect` is woken.
    ///
    /// Refused as `Cell::reply` is: with `Exhausted` and `NoMemory`. A refusal changes nothing and gives the content back.
    ///
    /// Manual: `reply/2`; ours: docs/DECISIONS.md, Requests.
    pub fn reply<R: Wait>(
        &self,
        rt: &R,
        tag: Tag,
        content: M::Content,
    ) -> Result<bool, Refused<M::Content>>
        ensures does { IsToldSomewhere (callbacks_of M.Module M.State.eq) (id_of self.now) (command.Reply tag content) (replied_as result) }
        ensures returned { IfErr result (λ refused. refused.value ≡ content) }
    {
        let (held, mut inner) = self.arrive(rt);
        its_cell_is_journaled(&inner);
        let answer = inner.reply(tag, content);
        drop(held.give_back(inner));
        self.changed.notify_all();
        answer
    }

    /// Ends the machine at once, as `Cell::stop` does, and answers its last word. Who waits in `wait_collect` is woken.
    ///
    /// Refused as `Cell::stop` is: with `Stopped` and `Exhausted`. It takes no memory.
    ///
    /// Manual: `stop/3`; ours: docs/DECISIONS.md, A stop from outside.
    pub fn stop<R: Wait>(&self, rt: &R, reason: Reason) -> Result<u32, Refusal>
        ensures { IsToldSomewhere (callbacks_of M.Module M.State.eq) (id_of self.now) (command.Stop reason) (stopped_as result) }
    {
        let (held, mut inner) = self.arrive(rt);
        its_cell_is_journaled(&inner);
        let answer = inner.stop(reason);
        drop(held.give_back(inner));
        self.changed.notify_all();
        answer
    }

    /// Ends the machine at once, as `stop` does, and answers how many accepted events waited: they are dropped.
    ///
    /// Refused as `stop` is. It takes no memory.
    ///
    /// Manual: `stop/3`; ours: docs/DECISIONS.md, A stop from outside.
    pub fn stop_and_count<R: Wait>(&self, rt: &R, reason: Reason) -> Result<usize, Refusal>
        ensures { StopsSomewhere (callbacks_of M.Module M.State.eq) (id_of self.now) reason result }
    {
        let (held, mut inner) = self.arrive(rt);
        its_cell_is_journaled(&inner);
        let waited = inner.core().waiting();
        let answer = inner.stop(reason);
        drop(held.give_back(inner));
        self.changed.notify_all();
        match answer {
            Ok(_word) => Ok(waited),
            Err(refusal) => Err(refusal),
        }
    }

    /// A copy of the journal, with a label, as the machine's name.
    ///
    /// Refused with `NoMemory` where memory is wanted and there is none. It walks the journal.
    ///
    /// Ours: docs/DECISIONS.md, Journals.
    pub fn journal<R: Wait>(
        &self,
        rt: &R,
        label: &str,
    ) -> Result<Journal<M::State, M::Content>, Refusal>
        ensures journal { IfOk result (λ journal. IsJournalAt (callbacks_of M.Module M.State.eq) (id_of self.now) label.now journal) }

        ensures refusals { IfErr result (λ refusal. refusal ≡ NoMemory) }
    {
        let (held, inner) = self.arrive(rt);
        its_cell_is_journaled(&inner);
        let answer = inner.journal(label);
        drop(held.give_back(inner));
        answer
    }

    /// Cuts the journal, as `Cell::cut` does.
    ///
    /// Refused with `NoMemory` where memory is wanted and there is none; then nothing is cut.
    ///
    /// Ours: docs/DECISIONS.md, Journals.
    pub fn cut<R: Wait>(&self, rt: &R) -> Result<(), Refusal>
        ensures refusals { IfErr result (λ refusal. refusal ≡ NoMemory) }
    {
        let (held, mut inner) = self.arrive(rt);
        let answer = inner.cut();
        drop(held.give_back(inner));
        answer
    }

    /// Hands the journal out, with a label, and cuts it, as `Cell::take_journal` does: between the two nothing is told to the
    /// machine, so no entry is lost.
    ///
    /// Refused with `NoMemory` where memory is wanted and there is none; then the journal stays.
    ///
    /// Ours: docs/DECISIONS.md, Journals.
    pub fn take_journal<R: Wait>(
        &self,
        rt: &R,
        label: &str,
    ) -> Result<Journal<M::State, M::Content>, Refusal>
        ensures journal { IfOk result (λ journal. IsJournalAt (callbacks_of M.Module M.State.eq) (id_of self.now) label.now journal) }

        ensures refusals { IfErr result (λ refusal. refusal ≡ NoMemory) }
    {
        let (held, mut inner) = self.arrive(rt);
        its_cell_is_journaled(&inner);
        let answer = inner.take_journal(label);
        drop(held.give_back(inner));
        answer
    }
}
