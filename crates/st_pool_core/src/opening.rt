//! A pool begins.
ghost use Rattle.std.specs.Prelude.{◌≡◌, ℕ, map, MatchOption, IfOk, IfErr, All};
ghost use Rattle.st_pool_core.specs.Opening.{core_id, may_have, HasItsOwn, IsWhyNone, Opens};
ghost use Rattle.st_pool_core.specs.PoolState.{OneEach};
ghost use Rattle.st_scheduled.specs.Serving.{scheduled_at_first};

use crate::machines::{Ids, Machines};
use crate::pool::Pool;
use crate::run_queues::RunQueues;
use crate::transit::Transit;
use indexmap::IndexSet;
use st_core::{Core, a_machine_is_lawful};
use st_events::{MachineId, Module, Refusal, Refused};
use std::alloc::{AllocError, Global};

/// The most workers that a pool may have.
const MOST_WORKERS: usize = 16;

/// Says whether a pool may have so many workers.
fn may_have(workers: usize) -> bool
    ensures { result ≡ may_have workers }
{
    0 < workers && workers <= MOST_WORKERS
}

/// The ids of machines, in their order; `None` where two have one id. Each machine's outbox has its own messages alone,
/// since it is lawful.
fn ids_of<M: Module>(cores: &[Core<M>], alloc: Global) -> Result<Option<Ids>, AllocError>
    ensures { IfOk result (λ ids. MatchOption ids (OneEach (map scheduled_at_first cores.now) → ⊥) (λ ids. (ids.all.keys ≡ map core_id cores.now) × OneEach (map scheduled_at_first cores.now) × All HasItsOwn cores.now)) }
{
    let mut ids = Ids {
        all: IndexSet::with_capacity(alloc, cores.len())?,
    };
    for core in cores {
        a_machine_is_lawful(core);
        if !ids.all.insert(core.id())? {
            return Ok(None);
        }
    }
    Ok(Some(ids))
}

/// What a pool has beside its machines: their ids, its run queues and its workers' hands.
struct Frame<C> {
    ids: Ids,
    queues: RunQueues,
    transit: Transit<C>,
}

/// What a pool of so many workers and these machines has beside them, or why there is no such pool.
fn framed<M: Module>(
    alloc: Global,
    workers: usize,
    cores: &[Core<M>],
) -> Result<Frame<M::Content>, Refusal>
    ensures framed { IfOk result (λ frame. (frame.ids.all.keys ≡ map core_id cores.now) × Opens workers cores.now (record { machines = map scheduled_at_first cores.now; queues = frame.queues; transit = frame.transit })) }

    ensures refusals { IfErr result (λ refusal. IsWhyNone workers cores.now refusal) }
{
    if !may_have(workers) {
        return Err(Refusal::NotPossible);
    }
    let Some(ids) = ids_of(cores, alloc)? else {
        return Err(Refusal::NotPossible);
    };
    let queues = RunQueues::new(alloc, workers)?;
    let transit = Transit::new(alloc, workers)?;
    Ok(Frame {
        ids,
        queues,
        transit,
    })
}

impl<M: Module> Pool<M> {
    /// A pool of so many workers, 1 to 16, and these machines; where that is not possible, the machines come back.
    pub(crate) fn new(
        alloc: Global,
        workers: usize,
        cores: Vec<Core<M>>,
    ) -> Result<Pool<M>, Refused<Vec<Core<M>>>>
        ensures opened { IfOk result (λ pool. Opens workers cores.items pool) }

        ensures refusals { IfErr result (λ refused. IsWhyNone workers cores.items refused.refusal) }
        ensures returned { IfErr result (λ refused. refused.value ≡ cores) }
    {
        match framed(alloc, workers, &cores) {
            Ok(frame) => Pool::filled(alloc, frame, cores),
            Err(refusal) => Err(Refused::new(refusal, cores)),
        }
    }

    /// The pool of these machines; where there is no memory, they come back.
    fn filled(
        alloc: Global,
        frame: Frame<M::Content>,
        cores: Vec<Core<M>>,
    ) -> Result<Pool<M>, Refused<Vec<Core<M>>>>
        requires { frame.ids.all.keys ≡ map core_id cores.items }
        ensures opened { (workers : ℕ) → Opens workers cores.items (record { machines = map scheduled_at_first cores.items; queues = frame.queues; transit = frame.transit }) → IfOk result (λ pool. Opens workers cores.items pool) }

        ensures refusals { (workers : ℕ) → IfErr result (λ refused. IsWhyNone workers cores.items refused.refusal) }
        ensures returned { IfErr result (λ refused. refused.value ≡ cores) }
    {
        let Frame {
            ids,
            queues,
            transit,
        } = frame;
        match Machines::new(alloc, ids, cores) {
            Ok(machines) => Ok(Pool {
                machines,
                queues,
                transit,
            }),
            Err(cores) => Err(Refused::new(Refusal::NoMemory, cores)),
        }
    }
}
