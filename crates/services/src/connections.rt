//! A service of connections of a pool: two clients want each of them at once, and the second has it after the first.

use crate::shutting::stop;
use keeper_module::{Connection, Content, Place};
use st_client::receive;
use st_service::{
    Called, Journals, MachineId, Nobody, Options, RequestId, Runtime, Service, ServicePort, Spawned,
};
use std::alloc::{AllocError, Global};
use std::collections::VecDeque;
use std::random::RandomSource;
use std::rt::Clock;

/// So many connections are in the pool.
const CONNECTIONS: u32 = 200;

/// The clients.
const CLIENTS: [u32; 2] = [1, 2];

/// So many events may wait at a connection, nothing is kept of what it did, and what waits at the end is handled.
const OPTIONS: Options = Options {
    waiting: 100,
    journals: Journals::None,
    turns: 10_000,
};

/// A pool of connections.
type Pool<R> = Service<Connection, R, Nobody>;

/// A connection, and what its clients have asked for.
#[derive(Drop)]
struct Wanted<R: Runtime + Clock> {
    port: ServicePort<Connection, R, Nobody>,
    requests: VecDeque<(u32, RequestId<Connection>)>,
}

/// Starts a connection. `None` where it is refused.
fn start<R: Runtime + Clock>(
    pool: &Pool<R>,
    number: u32,
) -> Option<ServicePort<Connection, R, Nobody>> {
    let owner = MachineId { slot: 0, serial: 0 };
    let place = Place { owner, number };
    match pool.spawn(None, Connection, &place) {
        Ok(Spawned::Running(_, port)) => port,
        _ => None,
    }
}

impl<R: Runtime + Clock> Wanted<R> {
    /// Asks for the connection in the name of a client, and says whether that was accepted.
    fn ask(&mut self, client: u32) -> bool {
        match self.port.send_request(Content::CheckOut(client)) {
            Ok(request) => self.requests.push_back((client, request)).is_ok(),
            Err(_) => false,
        }
    }

    /// Asks for it in the name of each client, and says whether all was accepted.
    fn ask_all(&mut self) -> bool {
        for client in CLIENTS {
            if !self.ask(client) {
                return false;
            }
        }
        true
    }

    /// Says that the connection's socket is open: no owner is there to be told to open it. Answers whether that was accepted.
    fn connect(&mut self) -> bool {
        self.port.info(Content::Connected).is_ok()
    }

    /// Gives the connection back for a client. Where that is refused, the connection takes itself back when the lease is
    /// over.
    fn give_back(&mut self, client: u32) {
        let _ = self.port.cast(Content::CheckIn(client));
    }
}

/// Starts a connection, asks for it in the name of each client, and says that its socket is open. `None` where it is
/// refused.
fn want<R: Runtime + Clock>(pool: &Pool<R>, alloc: Global, number: u32) -> Option<Wanted<R>> {
    let mut wanted = Wanted {
        port: start(pool, number)?,
        requests: VecDeque::new(alloc),
    };
    if wanted.ask_all() && wanted.connect() {
        return Some(wanted);
    }
    drop(wanted);
    None
}

/// Waits until a client has had its answer, and says whether it has the connection.
fn has_it<R: Runtime + Clock>(rt: &R, request: RequestId<Connection>) -> bool {
    matches!(receive(rt, request), Called::Reply(Content::CheckedOut(_)))
}

/// Waits until each client has had the connection and has given it back, and answers how many had it.
fn lend<R: Runtime + Clock>(rt: &R, mut wanted: Wanted<R>) -> u64 {
    let mut lent: u64 = 0;
    for _ in 0..wanted.requests.len() {
        if let Some((client, request)) = wanted.requests.pop_front() {
            if has_it(rt, request) {
                lent = lent.saturating_add(1);
                wanted.give_back(client);
            }
        }
    }
    drop(wanted);
    lent
}

/// Starts all connections and lends them, and answers how often one was lent.
fn lend_all<R: Runtime + Clock>(rt: &R, pool: &Pool<R>, alloc: Global) -> Result<u64, AllocError> {
    let mut all = Vec::new(alloc);
    for number in 0..CONNECTIONS {
        if let Some(wanted) = want(pool, alloc, number) {
            all.push(wanted)?;
        }
    }
    let mut lent: u64 = 0;
    for wanted in all {
        lent = lent.saturating_add(lend(rt, wanted));
    }
    Ok(lent)
}

/// Opens the pool and lends its connections, and says how often one was lent, and how many were stopped.
pub fn run<R: Runtime + Clock + RandomSource>(rt: R, alloc: Global) -> Result<String, AllocError> {
    let pool = Service::start(rt, alloc, 4, OPTIONS, Nobody)?;
    let lent = lend_all(&rt, &pool, alloc);
    let stopped = stop(pool)?;
    let lent = lent?;
    Ok(format!(in alloc; "lent {lent} stopped {stopped}\n")?)
}
