//! What a service stands on.
use crate::closing::Closing;
use crate::link::Link;
use crate::served_hall::ServedHall;
use crate::{Journals, Observer, Slices};
use st_hall::{Hall, Module, Registry};
use st_pool::{Pool, Runtime};
use st_ticker::Ticker;
use std::alloc::{AllocError, Global};
use std::random::RandomSource;
use std::rt::Clock;
use std::sync::{Arc, Wait};
use std::time::Instant;

/// What a service stands on while it starts: its hall, the ticker of that, the hall as workers serve it, and whether the
/// service is closing.
#[derive(Drop)]
pub(crate) struct Ground<M: Module, R: Wait + Clock + Drop, O: Observer<M> + Drop> {
    pub(crate) hall: Arc<Hall<M, R>, Global>,
    pub(crate) ticker: Arc<Ticker<M, R>, Global>,
    pub(crate) served: Arc<ServedHall<M, R, O>, Global>,
    closing: Closing,
}

/// A registry without machines. Those that are started keep a journal, or none.
fn registry<M: Module, R: RandomSource>(
    rt: &R,
    alloc: Global,
    keeps: bool,
) -> Result<Registry<M>, AllocError> {
    if keeps {
        return Registry::new_keyed(rt, alloc);
    }
    Registry::unjournaled_keyed(rt, alloc)
}

/// A hall without machines. Those that are started keep a journal, or none.
fn hall<M: Module, R: Wait + RandomSource + Drop>(
    rt: R,
    alloc: Global,
    keeps: bool,
) -> Result<Arc<Hall<M, R>, Global>, AllocError> {
    let Ok(registry) = registry(&rt, alloc, keeps) else {
        return Err(AllocError);
    };
    match Arc::new(alloc, Hall::new(rt, registry)) {
        Ok(hall) => Ok(hall),
        Err(_) => Err(AllocError),
    }
}

/// A hall, as workers serve it.
fn served<M: Module, R: Wait + Clock + Drop, O: Observer<M> + Drop>(
    rt: R,
    alloc: Global,
    hall: &Arc<Hall<M, R>, Global>,
    observer: O,
    limit: Option<usize>,
    closing: &Closing,
) -> Result<Arc<ServedHall<M, R, O>, Global>, AllocError> {
    let slices = Slices::new(Arc::try_clone(hall)?);
    let hall = Arc::try_clone(hall)?;
    let closing = closing.share()?;
    let served = ServedHall::new(rt, hall, slices, observer, limit, closing);
    match Arc::new(alloc, served) {
        Ok(served) => Ok(served),
        Err(_) => Err(AllocError),
    }
}

// A refusal is told by `let .. else` and not by `?`, here and in `Service::start`: the two calls that `?` makes are proved
// anew at each of these large types.
impl<M: Module, R: Runtime + Clock, O: Observer<M> + Drop> Ground<M, R, O> {
    /// A hall without machines, whose moments are the milliseconds since `start`.
    pub(crate) fn new(
        rt: R,
        alloc: Global,
        start: Instant,
        journals: Journals,
        observer: O,
    ) -> Result<Ground<M, R, O>, AllocError>
    where
        R: RandomSource,
    {
        let keeps = journals.are_kept() || observer.observes();
        let Ok(closing) = Closing::new(alloc) else {
            return Err(AllocError);
        };
        let Ok(hall) = hall(rt, alloc, keeps) else {
            return Err(AllocError);
        };
        let Ok(ticker) = Ticker::new(rt, alloc, start, &hall) else {
            return Err(AllocError);
        };
        let limit = journals.limit();
        let Ok(served) = served(rt, alloc, &hall, observer, limit, &closing) else {
            return Err(AllocError);
        };
        Ok(Ground {
            hall,
            ticker,
            served,
            closing,
        })
    }

    /// How ports reach those who serve.
    pub(crate) fn link(
        &self,
        rt: R,
        alloc: Global,
        pool: &Pool<R, M::Content>,
    ) -> Result<Arc<Link<M, R, O>, Global>, AllocError>
    where
        M::Content: Send + 'static,
    {
        let scheduler = pool.scheduler()?;
        let closing = self.closing.share()?;
        let Ok(served) = Arc::try_clone(&self.served) else {
            return Err(AllocError);
        };
        let Ok(ticker) = Arc::try_clone(&self.ticker) else {
            return Err(AllocError);
        };
        let link = Link::new(rt, scheduler, closing, served, ticker);
        match Arc::new(alloc, link) {
            Ok(link) => Ok(link),
            Err(_) => Err(AllocError),
        }
    }
}
