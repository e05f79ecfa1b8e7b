//! One door, as a client has it.
use super::came::Came;
use super::doors::Doors;
use super::sending::Sending;
use super::waker::Waker;
use st_client::{
    Called, Collection, Port, Refused, Request, RequestId, Sent, call, cast, info, send_request,
};
use st_door::{Door, DoorContent};
use std::mem;
use std::sync::Wait;

/// A port of a door of a registry, and who schedules the door's token; the request that was sent last, and those that are
/// gathered. The port that was used before it stays open.
#[derive(Drop)]
pub struct Doorway {
    pub doors: Box<Doors>,
    pub port: Port<Door>,
    pub before: Option<Port<Door>>,
    pub waker: Waker,
    pub asked: Option<RequestId<Door>>,
    pub gathered: Collection<Door, char>,
}

impl Doorway {
    /// Keeps a request. Its event's number.
    fn keep(&mut self, id: RequestId<Door>) -> u64 {
        let number = id.tag().request;
        drop(mem::replace(&mut self.asked, Some(id)));
        number
    }

    /// What a call came to. Where its request stands, that is kept.
    fn keep_called(&mut self, called: Called<Door>) -> Came {
        match called {
            Called::Reply(content) => Came::Reply(content),
            Called::Stopped(reason) => Came::Stopped(reason),
            Called::Gone => Came::Gone,
            Called::Uncollected(id, refusal) => {
                self.keep(id);
                Came::Uncollected(refusal)
            }
            Called::Unscheduled(id, left) => Came::Unscheduled(self.keep(id), left),
        }
    }

    /// Posts an event. A request is kept.
    pub fn send(
        &mut self,
        threads: &impl Wait,
        sending: Sending,
        content: DoorContent,
    ) -> Result<Came, Refused<DoorContent>> {
        match sending {
            Sending::Cast => Came::of_sent(cast(threads, &mut self.port, &self.waker, content)),
            Sending::Info => Came::of_sent(info(threads, &mut self.port, &self.waker, content)),
            Sending::Request => {
                match send_request(threads, &mut self.port, &self.waker, content) {
                    Ok((id, left)) => {
                        let number = self.keep(id);
                        Ok(Came::Sent(Sent { number, left }))
                    }
                    Err(refused) => Err(refused),
                }
            }
            Sending::Call => match call(threads, &mut self.port, &self.waker, content) {
                Ok(called) => Ok(self.keep_called(called)),
                Err(refused) => Err(refused),
            },
        }
    }

    /// How many requests are gathered.
    pub fn size(&self) -> usize {
        self.gathered.size()
    }
}
