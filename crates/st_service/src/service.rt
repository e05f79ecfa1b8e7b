//! Machines that are served.
ghost use Rattle.std.specs.Prelude.{◌≡◌, ◌⊎◌, ◌==◌, ◌≤◌, ℕ, true, Result, Err, IfOk, IfErr, OnOk, option_copied};
ghost use Rattle.std.specs.Arc.{arc_value};
ghost use Rattle.st_events.specs.declared.refusal.Refusal.TheVariants.{NoMemory, NoSuchName, NoSuchMachine, NotStopped};
ghost use Rattle.st_directory.specs.Entries.{names_of_entries};
ghost use Rattle.st_cell.specs.Calls.{is_removable};
ghost use Rattle.st_lock.specs.Machines.{id_of, IsFoundAt};
ghost use Rattle.st_lock.specs.Ports.{port_at_first};
ghost use Rattle.st_events.specs.declared.refused.Refused.{Refused};
ghost use Rattle.st_core.specs.Callbacks.{callbacks_of};
ghost use Rattle.st_core.specs.Start.{start_of};
ghost use Rattle.st_registry.specs.declared.started.Started.{Started};
ghost use Rattle.st_hall.specs.Hall.{StartsSomewhere, IsNamedSomewhere, AreNamesSomewhere, IsThereSomewhere, IsCountedSomewhere};
ghost use Rattle.st_pool.specs.Pool.{threads_of};
ghost use Rattle.st_service.specs.Spawning.{module_in, AnswersStart};
ghost use Rattle.st_service.specs.declared.unspawned.Unspawned.TheVariants.{Closed};

use crate::ground::Ground;
use crate::link::Link;
use crate::served_hall::ServedHall;
use crate::shutting::Shutting;
use crate::{Observer, Options, ServicePort, Spawned, Unspawned};
use st_events::Token;
use st_hall::{Hall, Machine, MachineId, Module, Reason, Refusal, Refused, Started};
use st_pool::Runtime;
use st_ticker::{TickedPool, Ticker};
use std::alloc::{AllocError, Global};
use std::random::RandomSource;
use std::rt::Clock;
use std::sync::Arc;
use std::time::Instant;

/// Machines of one module, workers in threads of their own that serve them, and a ticker in one more that makes their
/// time-outs come. Any number of threads may share it.
///
/// One that is dropped takes no posts any more, stops each machine with the reason `Service::DROPPED`, and ends its threads,
/// each after the turn that it is in. What waits at its machines is dropped with them, and who waits for a reply hears that the
/// machine stopped. `shut_down` ends it in order.
///
/// Moments are the milliseconds since its start.
///
/// Manual: the introduction; ours: docs/DECISIONS.md, Services.
pub struct Service<M: Module, R: Runtime + Clock, O: Observer<M> + Drop> {
    pub(crate) rt: R,
    pub(crate) alloc: Global,
    pub(crate) options: Options,
    pub(crate) pool: TickedPool<R, M::Content, Ticker<M, R>>,
    pub(crate) link: Arc<Link<M, R, O>, Global>,
    pub(crate) ticker: Arc<Ticker<M, R>, Global>,
    pub(crate) served: Arc<ServedHall<M, R, O>, Global>,
    pub(crate) hall: Arc<Hall<M, R>, Global>,
    pub(crate) shutting: Shutting<M::Content>,
}

impl<M: Module, R: Runtime + Clock, O: Observer<M> + Drop> Drop for Service<M, R, O> {
    fn drop(self) {
        self.link.close();
        self.hall.stop_each(Service::<M, R, O>::DROPPED);
        let Service {
            rt: _,
            alloc: _,
            options: _,
            pool: _,
            link: _,
            ticker: _,
            served: _,
            hall: _,
            shutting: _,
        } = self;
    }
}

impl<M: Module + Send + Sync + 'static, R: Runtime + Clock + RandomSource, O> Service<M, R, O>
where
    O: Observer<M> + Drop + Send + Sync + 'static,
    M::State: Send + Sync + 'static,
    M::Data: Send + Sync + 'static,
    M::Content: Send + Sync + 'static,
    M::Arg: Send + Sync + 'static,
{
    /// Starts a service without machines: 1 to 16 workers and a ticker.
    ///
    /// Refused with `AllocError` where there is no memory, no thread, no clock or no random key for its names; then no thread is
    /// left running.
    ///
    /// Ours: docs/DECISIONS.md, Services.
    pub fn start(
        rt: R,
        alloc: Global,
        workers: usize,
        options: Options,
        observer: O,
    ) -> Result<Service<M, R, O>, AllocError>
        requires { (1 ≤ workers) × (workers ≤ 16) }
        ensures threads { IfOk result (λ service. threads_of service.pool.pool ≡ workers) }
    {
        let Ok(start) = Instant::now(&rt) else {
            return Err(AllocError);
        };
        let Ok(ground) = Ground::new(rt, alloc, start, options.journals, observer) else {
            return Err(AllocError);
        };
        let pool = TickedPool::start(rt, alloc, workers, &ground.served, &ground.ticker);
        let Ok(pool) = pool else {
            return Err(AllocError);
        };
        let Ok(link) = ground.link(rt, alloc, pool.pool()) else {
            return Err(AllocError);
        };
        let Ground {
            hall,
            ticker,
            served,
            ..
        } = ground;
        Ok(Service {
            rt,
            alloc,
            options,
            pool,
            link,
            ticker,
            served,
            hall,
            shutting: Shutting::new(alloc),
        })
    }
}

impl<M: Module, R: Runtime + Clock, O: Observer<M> + Drop> Service<M, R, O> {
    /// The reason with which each machine stops whose service is dropped.
    ///
    /// Ours: docs/DECISIONS.md, Services.
    pub const DROPPED: Reason = 0;

    /// Starts a machine, under a name if one is given, and opens a port on it. Workers serve it from now on, and its time-outs
    /// come. The module's `init` and first enter call run in the caller's thread.
    ///
    /// Refused with `Closed` where the service is shutting down, and as `Hall::start` is. Then nothing has changed, and the
    /// module comes back. Where there is no memory to schedule or to watch the machine, that is tried again until the service
    /// is closing; no contract says that this ends.
    ///
    /// Manual: `start/3`, `start/4`, `start_ret()`; ours: docs/DECISIONS.md, Services.
    pub fn spawn(
        &self,
        name: Option<&str>,
        module: M,
        arg: &M::Arg,
    ) -> Result<Spawned<M, R, O>, Unspawned<M>>
        ensures starts { (result ≡ Err (Closed «module»)) ⊎ ((now : ℕ) × (answer : Result Started (Refused M)) × StartsSomewhere {A = M.Arg} «module» (λ id. start_of (callbacks_of M.Module M.State.eq «module») «module» id (M.init_is «module» arg.now) now 1) (option_copied name.entry) now answer × AnswersStart answer result) }

        ensures returned { IfErr result (λ unspawned. module_in unspawned ≡ «module») }
    {
        let is_closed = self.link.is_closed().read(&self.rt);
        if *is_closed || self.link.is_closing() {
            return Err(Unspawned::Closed(module));
        }
        let started = self.hall.start(name, module, arg, self.ticker.now());
        self.answer(started)
    }

    /// What a start came to. A machine that runs is watched and scheduled, and a port is opened on it.
    fn answer(&self, started: Result<Started, Refused<M>>) -> Result<Spawned<M, R, O>, Unspawned<M>>
        ensures { AnswersStart started result }
    {
        match started {
            Ok(Started::Running { id, wake }) => {
                self.begin(id, wake);
                Ok(Spawned::Running(id, self.port(id).ok()))
            }
            Ok(Started::Ignored) => Ok(Spawned::Ignored),
            Ok(Started::Stopped(reason)) => Ok(Spawned::Stopped(reason)),
            Err(refused) => Err(Unspawned::Refused(refused)),
        }
    }

    /// A machine that was started is watched, and scheduled where it has work. Where there is no memory, it is tried again
    /// until the service is closing.
    fn begin(&self, id: MachineId, wake: Option<Token>) {
        for _ in self.rt.forever() {
            if self.ticker.watch(id).is_ok() || self.link.gives_up() {
                break;
            }
        }
        // Where it comes back, the service is closing: who closes it asks the machine for its token.
        let _ = self.link.schedule(wake);
    }

    /// The machine of an id, as `Hall::machine` answers it.
    ///
    /// Refused with `NoSuchMachine` where the id names none now, and with `NoMemory` where the machine has as many owners as
    /// can be counted.
    ///
    /// Ours: docs/DECISIONS.md, Services.
    pub fn machine(&self, id: MachineId) -> Result<Arc<Machine<M>, Global>, Refusal>
        ensures id { IfOk result (λ machine. id_of (arc_value machine) ≡ id) }

        ensures refusals { IfErr result (λ refusal. (refusal ≡ NoSuchMachine) ⊎ (refusal ≡ NoMemory)) }
    {
        self.hall.machine(id)
    }

    /// The id of the machine of a name.
    ///
    /// Refused with `NoSuchName` where the name is not registered.
    ///
    /// Manual: `server_ref()`; ours: docs/DECISIONS.md, Services.
    pub fn whereis(&self, name: &str) -> Result<MachineId, Refusal>
        ensures found { IfOk result (λ id. IsNamedSomewhere M M.State M.Data M.Content M.Arg name.now id) }

        ensures refusals { IfErr result (λ refusal. refusal ≡ NoSuchName) }
    {
        self.hall.whereis(name)
    }

    /// A copy of the names, each with the id of its machine, in order of registration.
    ///
    /// Refused with `AllocError` where memory is wanted and there is none.
    ///
    /// Ours: docs/DECISIONS.md, Services.
    pub fn names(&self) -> Result<Vec<(String, MachineId)>, AllocError>
        ensures names { IfOk result (λ names. AreNamesSomewhere M M.State M.Data M.Content M.Arg (names_of_entries names.items)) }
    {
        self.hall.names(self.alloc)
    }

    /// How many machines there are.
    ///
    /// Ours: docs/DECISIONS.md, Services.
    pub fn len(&self) -> usize
        ensures { IsCountedSomewhere M M.State M.Data M.Content M.Arg result }
    {
        self.hall.len()
    }

    /// Says whether there is no machine.
    ///
    /// Ours: docs/DECISIONS.md, Services.
    pub fn is_empty(&self) -> bool
        ensures { (count : ℕ) × IsCountedSomewhere M M.State M.Data M.Content M.Arg count × (result ≡ (count == 0)) }
    {
        self.hall.is_empty()
    }

    /// Opens the next port on a machine. Nothing was posted through it yet.
    ///
    /// Refused with `NoSuchMachine` where the id names none now, and with `NoMemory`; then none is opened.
    ///
    /// Ours: docs/DECISIONS.md, Ports.
    pub fn port(&self, id: MachineId) -> Result<ServicePort<M, R, O>, Refusal>
        ensures opened { IfOk result (λ port. port.port ≡ port_at_first id) }

        ensures refusals { IfErr result (λ refusal. (refusal ≡ NoSuchMachine) ⊎ (refusal ≡ NoMemory)) }
    {
        let machine = self.hall.machine(id)?;
        let link = Arc::try_clone(&self.link)?;
        let port = Machine::port(&machine, &self.rt)?;
        Ok(ServicePort::new(port, link, self.options.waiting))
    }

    /// Removes a machine that has ended, as `Hall::remove_stopped` does. The observer is told what its journal holds.
    ///
    /// Refused with `NoSuchMachine` where the id names none now, with `NotStopped` where the machine has not ended or a message
    /// of it was not delivered, and with `NoMemory`; then it is not removed.
    ///
    /// Ours: docs/DECISIONS.md, Services.
    pub fn remove_stopped(&self, id: MachineId) -> Result<(), Refusal>
        ensures there { OnOk result (IsThereSomewhere M M.State M.Data M.Content M.Arg id) }
        ensures stopped { OnOk result (IsFoundAt (callbacks_of M.Module M.State.eq) (λ cell. is_removable cell) id true) }

        ensures refusals { IfErr result (λ refusal. (refusal ≡ NoSuchMachine) ⊎ (refusal ≡ NotStopped) ⊎ (refusal ≡ NoMemory)) }
    {
        let machine = self.hall.machine(id)?;
        if self.served.is_observed() && machine.removable(&self.rt) {
            self.served.tell_all(&*machine)?;
        }
        self.hall.remove_stopped(id)
    }
}
