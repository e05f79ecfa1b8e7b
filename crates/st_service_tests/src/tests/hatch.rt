//! The hatch of a clerk. Each call of a port stands here, once: it is proved anew in each function that makes it.
use super::clerk::Clerk;
use super::hired::Hired;
use super::patience::Threads;
use super::said::Said;
use super::seen::Seen;
use super::tally::Counting;
use super::way::Way;
use crate::{Order, Window};
use st_client::receive;
use st_lock::Look;
use st_service::{Called, Refusal, RequestId, ServicePort};

/// A port of a clerk, and a request that he has yet to reply to, if one stands.
#[derive(Drop)]
pub struct Hatch<R: Threads> {
    pub threads: R,
    pub port: ServicePort<Clerk, R, Counting>,
    pub asked: Option<RequestId<Clerk>>,
}

/// A request stands. It is kept, in place of one that stood before.
fn keeps(asked: &mut Option<RequestId<Clerk>>, request: RequestId<Clerk>) {
    drop(asked.replace(request));
}

/// What came of a call. A request that stands still is kept.
fn hears(asked: &mut Option<RequestId<Clerk>>, called: Called<Clerk>) -> Said {
    match called {
        Called::Reply(order) => Said::Reply(order),
        Called::Uncollected(request, refusal) => {
            keeps(asked, request);
            Said::Uncollected(refusal)
        }
        Called::Stopped(_reason) => Said::Nothing,
        Called::Gone => Said::Nothing,
        Called::Unscheduled(_request, _token) => Said::Nothing,
    }
}

impl<R: Threads> Hired for Hatch<R> {
    fn tell(&mut self, way: Way, order: Order) -> Said {
        match way {
            Way::Info => Said::told(self.port.info(order)),
            _ => Said::told(self.port.cast(order)),
        }
    }

    fn call(&mut self, order: Order) -> Said {
        match self.port.call(order) {
            Ok(called) => hears(&mut self.asked, called),
            Err(unposted) => Said::unposted(unposted),
        }
    }

    fn request(&mut self, order: Order) -> Said {
        match self.port.send_request(order) {
            Ok(request) => {
                keeps(&mut self.asked, request);
                Said::Told
            }
            Err(unposted) => Said::unposted(unposted),
        }
    }

    fn collect(&mut self) -> Said {
        match self.asked.take() {
            Some(request) => {
                let called = receive(&self.threads, request);
                hears(&mut self.asked, called)
            }
            None => Said::Nothing,
        }
    }

    fn see(&self) -> Seen {
        Seen {
            count: self.port.count(),
            ended: self.port.machine().ended(&self.threads),
        }
    }

    fn try_look(&mut self) -> Result<Look<Window, u32>, Refusal> {
        self.port.look()
    }
}
